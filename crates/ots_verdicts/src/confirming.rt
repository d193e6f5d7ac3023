//! The verdict on a file.
ghost use Rattle.std.specs.Prelude.{◌≡◌, IfErr, IfOk};
ghost use Rattle.std.specs.Option.{option_copied};
ghost use Rattle.ots_verdicts.specs.Confirmed.{IsVerdict};

use crate::verdicts::Verdict;
use crate::walk::best_of;
use ots_base::OutOfMemory;
use ots_headers::Headers;
use ots_ops::Digest;
use ots_tree::Detached;
use std::alloc::Global;

/// Whether the proof shows that the file with the digest `target` existed when a block was made,
/// by the headers of Bitcoin, and those of Litecoin where they are given.
///
/// `NoDigest` exactly where `target` is not the proof's digest. Else `Yes` with the least height of
/// Bitcoin that a path confirms, and else with the least of Litecoin: the path ends in the chain's
/// attestation of that height, and takes the digest to the Merkle root of the header there. Else
/// `NoPath`. A height outside the table confirms nothing.
///
/// Each operation of the tree is applied once. At a time it keeps one message in memory of `alloc`
/// for each fork whose node is open, at most 256 of them, and one more. That the digest is another is
/// told without memory.
pub fn verdict(
    alloc: Global,
    proof: &Detached,
    target: &Digest,
    bitcoin: &Headers,
    litecoin: Option<&Headers>,
) -> Result<Verdict, OutOfMemory>
    ensures verdict { IfOk result (IsVerdict proof.now target.now bitcoin.now (option_copied litecoin.entry)) }
    ensures short { IfErr result (λ _. target.now ≡ proof.now.digest) }
{
    if *target != proof.digest {
        return Ok(Verdict::NoDigest);
    }
    let best = best_of(alloc, &proof.digest, proof.tree.tokens(), bitcoin, litecoin)?;
    Ok(best.verdict())
}
