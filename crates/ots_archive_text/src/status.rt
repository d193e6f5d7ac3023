//! How a run ends.
ghost use Rattle.std.specs.Prelude.{◌≡◌};
ghost use Rattle.ots_archive_text.specs.Status.{number};

use ots_reader::Fault;

/// How a run of `otsarchive` ended, of which the worst is told: a program ends with the status's number. Up to 20 it is
/// the one that `ots` has for the same.
#[derive(Clone, Copy)]
pub enum ArchiveStatus {
    /// The command did its work.
    Done,
    /// `take`: of the proofs that were no drafts any more, made now or the same as before, some are pending: no path of
    /// them ends in Bitcoin.
    Pending,
    /// The words are not of a command's form.
    Usage,
    /// The input is no proof file: where and why.
    BadProof(Fault),
    /// The shelf has no such name.
    NoFile,
    /// The shelf has a name that was to be created.
    Exists,
    /// The shelf counted a fault while a file was opened or read.
    ReadFault,
    /// A name in a file of sums is not UTF-8, so that no file is opened under it.
    BadName,
    /// The shelf counted a fault while a file was created or written, or the sink counted one.
    WriteFault,
    /// A proof file has more than 4,194,304 bytes: an input, or a result.
    TooBig,
    /// Fewer calendars timestamped a proof than were wanted.
    TooFew {
        /// How many did.
        got: u32,
        /// How many were wanted.
        wanted: u32,
    },
    /// The source of nonces counted a fault.
    NonceFault,
    /// A file that a proof is about has more than 2^40 bytes.
    FileTooLong,
    /// The list of calendars has a piece that is no address, repeats an earlier one or is one too many.
    BadAddress {
        /// The place of its first byte in the list, counted from 0.
        place: usize,
    },
    /// Memory ran out.
    OutOfMemory,
    /// The number of the first line of a sheet of replies that is not of its form, counted from 1.
    BadSheet(u64),
    /// The number of the first line of a file of sums that is not of its form, counted from 1.
    BadSums(u64),
    /// The proofs ask for more than a sheet holds.
    TooManyRequests,
    /// Two inputs would be written under one name.
    Twice,
}

impl ArchiveStatus {
    /// The number that a program with this status ends with.
    pub fn number(self) -> u8
        ensures { result ≡ number self }
    {
        match self {
            ArchiveStatus::Done => 0,
            ArchiveStatus::Pending => 1,
            ArchiveStatus::Usage => 2,
            ArchiveStatus::BadProof(_) => 3,
            ArchiveStatus::NoFile => 4,
            ArchiveStatus::Exists => 5,
            ArchiveStatus::ReadFault | ArchiveStatus::BadName => 6,
            ArchiveStatus::WriteFault => 7,
            ArchiveStatus::TooBig => 8,
            ArchiveStatus::TooFew { .. } => 10,
            ArchiveStatus::NonceFault => 11,
            ArchiveStatus::FileTooLong => 12,
            ArchiveStatus::BadAddress { .. } => 14,
            ArchiveStatus::OutOfMemory => 20,
            ArchiveStatus::BadSheet(_) => 40,
            ArchiveStatus::BadSums(_) => 41,
            ArchiveStatus::TooManyRequests => 42,
            ArchiveStatus::Twice => 44,
        }
    }
}
