ghost use Rattle.std.specs.Prelude.{◌≡◌};
ghost use Rattle.ots_mirror_words.specs.Status.{number};

/// How a run of the mirror ended. A program ends with the status's number, which is the one that the
/// calendar's program has for the same.
#[derive(Clone, Copy, Debug, PartialEq, Eq)]
pub enum MirrorStatus {
    /// In the last round the calendar had no record that the mirror lacks.
    Done,
    /// All rounds were made, and in none of them was that so.
    Behind,
    /// The words are not of the form.
    Usage,
    /// The sink counted a fault.
    WriteFault,
    /// The calendar's address is not of its form.
    BadAddress {
        /// The place of its first byte in the word; where the word has several addresses, of the
        /// second.
        place: u64,
        /// Whether it begins with `https://`.
        https: bool,
    },
    /// Memory ran out.
    OutOfMemory,
    /// The journal's file is none.
    NotAJournal,
    /// After the open gate at this place of such a file stands nothing whole.
    Damaged(u64),
    /// The entry with this index is the first that is no record, or may not stand where it stands.
    BadRecord(u64),
    /// The journal's file has `need` bytes, or would have them with the records of a page, which is
    /// more than the limit.
    Full {
        need: u64,
        limit: u64,
    },
    /// The disk counted a fault.
    DiskFault,
    /// The journal's file is one of version 1.
    OldVersion,
}

impl MirrorStatus {
    /// The number that a program with this status ends with.
    pub fn number(self) -> u8
        ensures { result ≡ number self }
    {
        match self {
            MirrorStatus::Done => 0,
            MirrorStatus::Behind => 1,
            MirrorStatus::Usage => 2,
            MirrorStatus::WriteFault => 7,
            MirrorStatus::BadAddress { .. } => 14,
            MirrorStatus::OutOfMemory => 20,
            MirrorStatus::NotAJournal => 21,
            MirrorStatus::Damaged(_) => 22,
            MirrorStatus::BadRecord(_) => 23,
            MirrorStatus::Full { .. } => 24,
            MirrorStatus::DiskFault => 25,
            MirrorStatus::OldVersion => 35,
        }
    }
}
