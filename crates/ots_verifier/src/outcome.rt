//! What a proof file comes to that has come whole.
ghost use Rattle.std.specs.Prelude.{◌≡◌, ◌+◌, ◌^◌, ◌<◌, List, ℕ, Some, IsSome, length, min, take};
ghost use Rattle.std.specs.declared.option.Option.{Option};
ghost use Rattle.ots_tree.specs.Wire.{spelled};
ghost use Rattle.ots_headers.specs.HeaderTable.{Table};
ghost use Rattle.ots_reader.specs.Progress.{ends_at};
ghost use Rattle.ots_detached.specs.FileFault.{header_fault, moved};
ghost use Rattle.ots_verifier.specs.Checked.{Checks};
ghost use Rattle.ots_verifier.specs.Progress.{HasCome};
ghost use Rattle.ots_verifier.specs.Stage.{IsWithin};

use crate::checked::{CheckError, Checked};
use crate::following::Following;
use crate::progress::{MAX_HEADER, Progress, State};
use crate::stage::{Stage, moved};
use ots_detached::{FileHeader, read_header};
use ots_reader::{Fault, Reason};

/// What the proof file confirms that has come whole, or why it is none. It takes no memory.
pub(crate) fn found(progress: &Progress) -> Result<Checked, CheckError>
    requires { (bitcoin : Table) × (litecoin : Option Table) × (bytes : List ℕ)
        × HasCome bitcoin litecoin bytes progress.now }
    ensures { (bitcoin : Table) (litecoin : Option Table) (bytes : List ℕ) → HasCome bitcoin litecoin bytes progress.now
        → Checks bitcoin litecoin bytes result }
{
    match progress.state {
        State::TooBig => Err(CheckError::TooBig),
        State::Header => {
            let fault = fault_of_header(&progress.header, progress.count);
            Err(CheckError::BadProof(fault))
        }
        State::After(stage) => found_after(stage, &progress.following),
    }
}

/// The same of one of which the header is whole.
fn found_after(stage: Stage, following: &Following) -> Result<Checked, CheckError>
    requires { (bitcoin : Table) × (litecoin : Option Table) × (bytes : List ℕ)
        × IsWithin bitcoin litecoin bytes stage following.now }
    ensures { (bitcoin : Table) (litecoin : Option Table) (bytes : List ℕ)
        → IsWithin bitcoin litecoin bytes stage following.now → Checks bitcoin litecoin bytes result }
{
    match stage {
        Stage::Tree(header) => Err(CheckError::BadProof(fault_of_end(header, following))),
        Stage::Whole(header) => Ok(Checked {
            hash: header.hash,
            digest: header.digest,
            best: following.best.confirmation(),
        }),
        Stage::Refused(fault) => Err(CheckError::BadProof(fault)),
    }
}

/// What is wrong with a header of which `count` bytes have come.
fn fault_of_header(header: &[u8; MAX_HEADER], count: usize) -> Fault
    requires { IsSome (header_fault (take (min count MAX_HEADER) header.now)) }
    ensures { header_fault (take (min count MAX_HEADER) header.now) ≡ Some result }
{
    match read_header(&header[..count.min(MAX_HEADER)]) {
        Ok(_) => unreachable!(),
        Err(fault) => fault,
    }
}

/// The fault of bytes that end after this header before the tree does.
fn fault_of_end(header: FileHeader, following: &Following) -> Fault
    requires { 33 + length header.digest + length (spelled following.now.reader.came) < 2 ^ 64 }
    ensures { result ≡ moved (33 + length header.digest) (ends_at (length (spelled following.now.reader.came))) }
{
    let end = Fault {
        place: following.reader.place(),
        reason: Reason::Truncated,
    };
    moved(header, end)
}
