ghost use Rattle.std.specs.Prelude.{◌≡◌};
ghost use Rattle.ots_calendar_text.specs.Status.{number};

use ots_block::BlockReason;

/// How a run of the calendar ended. A program ends with the status's number.
#[derive(Clone, Copy, Debug, PartialEq, Eq)]
pub enum DaemonStatus {
    /// The command did its work.
    Done,
    /// `tip`: every commitment is covered.
    NothingNew,
    /// The words are not of a command's form.
    Usage,
    /// The shelf has no such name.
    NoFile,
    /// The shelf counted a fault while a file was opened or read.
    ReadFault,
    /// The sink counted a fault.
    WriteFault,
    /// A block file has more than 4,194,304 bytes, or the journal of version 1 more than
    /// 1,073,741,824.
    TooBig,
    /// `batch`: no nonce was given, and the nonces counted a fault.
    NonceFault,
    /// The calendar's address is not of its form.
    BadAddress {
        /// The place of its first byte in the word.
        place: u64,
        /// Whether it begins with `https://`.
        https: bool,
    },
    /// Memory ran out.
    OutOfMemory,
    /// The journal's file is none; or the file that was to be a journal of version 1.
    NotAJournal,
    /// After the open gate at this place of such a file stands nothing whole.
    Damaged(u64),
    /// The entry with this index is the first that is no record, or may not stand where it stands;
    /// of a command but `migrate` also where its values are not right.
    BadRecord(u64),
    /// The journal's file has `need` bytes, or would have them, which is more than the limit.
    Full {
        need: u64,
        limit: u64,
    },
    /// The disk counted a fault.
    DiskFault,
    /// `anchor`: no transaction of the block has the root of a tip in it.
    NoTip,
    /// `anchor`: the block's header has this root, and over its transactions it is another one.
    BadRoot {
        header: [u8; 32],
        computed: [u8; 32],
    },
    /// `anchor`: each transaction that has the root of a tip in it is longer than 4096 bytes without
    /// its witness. The number is the length of the first of them.
    TransactionTooLong(u64),
    /// The block file is no block: where and why.
    BadBlock {
        place: u64,
        reason: BlockReason,
    },
    /// The length of the key file: 0, or 65 where it has more than 64 bytes.
    BadKey(u64),
    /// The first line of the file of digests that is not of its form, counted from 1.
    BadDigests(u64),
    /// `serve`: the accepter counted a fault.
    AcceptFault,
    /// `batch`: the clock's second, which is 2^32 or more.
    BadSecond(u64),
    /// `migrate`: the least index at which the journal has an entry that the journal of version 1
    /// lacks or has otherwise.
    NotPrefix(u64),
    /// The journal's file is one of version 1.
    OldVersion,
}

impl DaemonStatus {
    /// The number that a program with this status ends with.
    pub fn number(self) -> u8
        ensures { result ≡ number self }
    {
        match self {
            DaemonStatus::Done => 0,
            DaemonStatus::NothingNew => 1,
            DaemonStatus::Usage => 2,
            DaemonStatus::NoFile => 4,
            DaemonStatus::ReadFault => 6,
            DaemonStatus::WriteFault => 7,
            DaemonStatus::TooBig => 8,
            DaemonStatus::NonceFault => 11,
            DaemonStatus::BadAddress { .. } => 14,
            DaemonStatus::OutOfMemory => 20,
            DaemonStatus::NotAJournal => 21,
            DaemonStatus::Damaged(_) => 22,
            DaemonStatus::BadRecord(_) => 23,
            DaemonStatus::Full { .. } => 24,
            DaemonStatus::DiskFault => 25,
            DaemonStatus::NoTip => 26,
            DaemonStatus::BadRoot { .. } => 27,
            DaemonStatus::TransactionTooLong(_) => 28,
            DaemonStatus::BadBlock { .. } => 29,
            DaemonStatus::BadKey(_) => 30,
            DaemonStatus::BadDigests(_) => 31,
            DaemonStatus::AcceptFault => 32,
            DaemonStatus::BadSecond(_) => 33,
            DaemonStatus::NotPrefix(_) => 34,
            DaemonStatus::OldVersion => 35,
        }
    }
}
