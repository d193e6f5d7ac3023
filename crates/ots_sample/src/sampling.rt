//! A sample from its number of paths.
ghost use Rattle.std.specs.Prelude.{◌≤◌, IfOk};
ghost use Rattle.ots_sample.specs.Sample.{IsSample};

use crate::headers::headers_of;
use crate::memory::file_in_memory;
use crate::outcome::Sample;
use crate::proof::sample_proof;
use ots_base::OutOfMemory;
use ots_verdicts::verdict;
use sha2::{Digest, Sha256};
use std::alloc::Global;

/// The most paths of a sample. The limit is this project's: the canonical file of as many has
/// 2,083,552 bytes, about half of what a proof file may have.
pub const MAX_SAMPLE: u32 = 100_000;

/// A sample with this number of paths, 1 to `MAX_SAMPLE`.
///
/// The digest is SHA-256 of the number of paths as 8 bytes, and path i, from the last to 0, appends i
/// as 4 bytes, hashes by SHA-256 and ends in the Bitcoin block i; all bytes are in big-endian order.
/// This proof is written to memory, read back and brought to canonical form. It is verified on its own
/// digest by one header, at half the number of paths, rounded down: its Merkle root is what the path of
/// that number makes of the digest.
pub fn sample(alloc: Global, paths: u32) -> Result<Sample, OutOfMemory>
    requires some { 1 ≤ paths }
    requires at_most { paths ≤ MAX_SAMPLE }
    ensures { IfOk result (IsSample paths) }
{
    let proof = sample_proof(alloc, paths)?;
    let headers = headers_of(alloc, paths, &proof.digest)?;
    let verdict = verdict(alloc, &proof, &proof.digest, &headers, None)?;
    let file = file_in_memory(alloc, &proof)?;
    Ok(Sample {
        paths,
        length: file.len() as u64,
        digest: Sha256::digest(file.as_slice()),
        verdict,
    })
}
