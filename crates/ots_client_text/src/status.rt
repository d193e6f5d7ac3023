//! How a run ends.
ghost use Rattle.std.specs.Prelude.{◌≡◌};
ghost use Rattle.ots_client_text.specs.Status.{complete_status, number, verdict_status};

use ots_chain::ChainFault;
use ots_ops::{Digest, HashOp};
use ots_reader::Fault;
use ots_verdicts::Verdict;

/// How a run of the client ended. A program ends with the status's number.
#[derive(Clone, Copy)]
pub enum Status {
    /// The command did its work.
    Done,
    /// `verify`: no path of the proof takes the file's digest to the Merkle root of a block that it
    /// attests, or the proof is of another digest. `upgrade`: no path of the result ends in Bitcoin.
    No,
    /// The words are not of a command's form.
    Usage,
    /// The input is no proof file: where and why.
    BadProof(Fault),
    /// The shelf has no such name.
    NoFile,
    /// The shelf has a name that was to be created.
    Exists,
    /// The shelf counted a fault while a file was opened or read.
    ReadFault,
    /// The shelf counted a fault while a file was created or written, or the sink counted one.
    WriteFault,
    /// A proof file has more than 4,194,304 bytes: an input, or a result.
    TooBig,
    /// The length of a file of headers: 0, or no multiple of 80, or 83,886,081 where it has more
    /// than 83,886,080 bytes.
    BadHeaders(u64),
    /// Fewer calendars timestamped the files than were wanted.
    TooFew {
        /// How many did.
        got: u32,
        /// How many were wanted.
        wanted: u32,
    },
    /// The source of nonces counted a fault.
    NonceFault,
    /// The file that a proof is about has more than 2^40 bytes.
    FileTooLong,
    /// Two proofs are of different digests, or their digests are made by different hashes.
    Differs {
        /// The hash of the first proof.
        first_hash: HashOp,
        /// The digest of the first proof.
        first_digest: Digest,
        /// The hash of the second proof.
        second_hash: HashOp,
        /// The digest of the second proof.
        second_digest: Digest,
    },
    /// The list of calendars has a piece that is no address, or one too many: where it begins.
    BadAddress {
        /// The place of its first byte in the list.
        place: usize,
        /// Whether it begins with `https://`.
        https: bool,
    },
    /// `chain`: each header below a height is good, and the one there is not.
    Broken {
        /// The height.
        height: u64,
        /// What is the matter with that header.
        fault: ChainFault,
    },
    /// The number of the first line of a file of pins that is not of its form, counted from 1: 1 where the file is
    /// empty, and 1,025 where it has more than 1,024 lines.
    BadPins(u64),
    /// `chain`: the height of the first pin that is outside the table or has another hash than the header there.
    PinFails(u64),
    /// Memory ran out.
    OutOfMemory,
}

impl Status {
    /// The number that a program with this status ends with.
    pub fn number(self) -> u8
        ensures { result ≡ number self }
    {
        match self {
            Status::Done => 0,
            Status::No => 1,
            Status::Usage => 2,
            Status::BadProof(_) => 3,
            Status::NoFile => 4,
            Status::Exists => 5,
            Status::ReadFault => 6,
            Status::WriteFault => 7,
            Status::TooBig => 8,
            Status::BadHeaders(_) => 9,
            Status::TooFew { .. } => 10,
            Status::NonceFault => 11,
            Status::FileTooLong => 12,
            Status::Differs { .. } => 13,
            Status::BadAddress { .. } => 14,
            Status::Broken { .. } => 16,
            Status::BadPins(_) => 17,
            Status::PinFails(_) => 18,
            Status::OutOfMemory => 20,
        }
    }
}

/// The status of a verdict.
pub fn verdict_status(verdict: Verdict) -> Status
    ensures { result ≡ verdict_status verdict }
{
    match verdict {
        Verdict::Yes { .. } => Status::Done,
        Verdict::NoDigest | Verdict::NoPath => Status::No,
    }
}

/// The status of an upgraded proof: whether some path of it ends in Bitcoin.
pub fn complete_status(complete: bool) -> Status
    ensures { result ≡ complete_status complete }
{
    if complete { Status::Done } else { Status::No }
}
