//! What is found of a proof file that came in pieces.
ghost use Rattle.std.specs.Prelude.{◌≡◌};
ghost use Rattle.std.specs.declared.option.Option.{Option};
ghost use Rattle.ots_tree.specs.declared.detached.Detached.{Detached};
ghost use Rattle.ots_headers.specs.HeaderTable.{Table};
ghost use Rattle.ots_verdicts.specs.Confirmed.{IsVerdict};
ghost use Rattle.ots_verifier.specs.Checked.{IsCheckOf};

use ots_ops::{Digest, HashOp};
use ots_reader::Fault;
use ots_verdicts::{Confirmation, Verdict};

/// What a proof is a proof of, and what it confirms by the headers that were given.
#[derive(Clone, Copy, Debug, PartialEq, Eq)]
pub struct Checked {
    /// The hash of the file that the proof is about.
    pub hash: HashOp,
    /// The digest of that file.
    pub digest: Digest,
    /// The least height of Bitcoin that a path confirms, or else the least of Litecoin.
    pub best: Option<Confirmation>,
}

/// Why bytes are no proof file.
#[derive(Clone, Copy, Debug, PartialEq, Eq)]
pub enum CheckError {
    /// They are more than 4,194,304.
    TooBig,
    /// They are no proof file: where and why.
    BadProof(Fault),
}

impl Checked {
    /// The verdict on the file with the digest `target`: `NoDigest` exactly where it is not the proof's.
    pub fn verdict(&self, target: &Digest) -> Verdict
        ensures { (proof : Detached) (bitcoin : Table) (litecoin : Option Table)
            → IsCheckOf proof bitcoin litecoin self.now
            → IsVerdict proof target.now bitcoin litecoin result }
    {
        if *target != self.digest {
            return Verdict::NoDigest;
        }
        Verdict::by(self.best)
    }
}
