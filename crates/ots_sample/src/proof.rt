//! The proof of a sample.
ghost use Rattle.std.specs.Prelude.{◌≡◌, ◌≤◌, length, IfOk};
ghost use Rattle.ots_detached.specs.File.{file_of};
ghost use Rattle.ots_sample.specs.Sample.{digest_of, IsSampleProof};
ghost use Rattle.ots_sample.specs.Tokens.{IsMadeOf, IsFormOf};

use crate::memory::file_in_memory;
use crate::sampling::MAX_SAMPLE;
use crate::tokens::tokens_of;
use ots_base::{MAX_PROOF_FILE, OutOfMemory};
use ots_canon::canon;
use ots_detached::{FileError, read_bytes, written_file};
use ots_ops::{Digest, HashOp, Hasher};
use ots_tree::{Detached, from_tokens, limits_of_detached};
use std::alloc::Global;

/// The proof with `paths` paths in canonical form. On the way it is written to memory and read back.
pub fn sample_proof(alloc: Global, paths: u32) -> Result<Detached, OutOfMemory>
    requires some { 1 ≤ paths }
    requires at_most { paths ≤ MAX_SAMPLE }
    ensures { IfOk result (IsSampleProof paths) }
{
    let made = made_proof(alloc, paths)?;
    let read = read_back(alloc, &made)?;
    canonical(alloc, &read)
}

/// The proof with `paths` paths, from the last number to 0.
fn made_proof(alloc: Global, paths: u32) -> Result<Detached, OutOfMemory>
    requires some { 1 ≤ paths }
    ensures { IfOk result (IsMadeOf paths) }
{
    let tree = from_tokens(alloc, tokens_of(alloc, paths)?)?;
    Ok(Detached {
        hash: HashOp::Sha256,
        digest: digest_of(paths),
        tree,
    })
}

/// SHA-256 of the number as 8 big-endian bytes.
fn digest_of(paths: u32) -> Digest
    ensures digest { result ≡ digest_of paths }
    ensures length { length result ≡ 32 }
{
    let mut hasher = Hasher::new(HashOp::Sha256);
    hasher.update(&u64::from(paths).to_be_bytes());
    hasher.finalize()
}

/// The same proof, written to memory and read back.
fn read_back(alloc: Global, proof: &Detached) -> Result<Detached, OutOfMemory>
    requires { length (file_of proof.now) ≤ MAX_PROOF_FILE }
    ensures { IfOk result (λ read. read ≡ proof.now) }
{
    written_file(proof);
    let file = file_in_memory(alloc, proof)?;
    match read_bytes(alloc, &file) {
        Ok(read) => Ok(read),
        Err(FileError::OutOfMemory) => Err(OutOfMemory),
        Err(FileError::ReadFault | FileError::TooBig | FileError::BadProof(_)) => unreachable!(),
    }
}

/// The proof in canonical form.
fn canonical(alloc: Global, proof: &Detached) -> Result<Detached, OutOfMemory>
    ensures { IfOk result (IsFormOf proof.now) }
{
    limits_of_detached(proof);
    let tree = canon(alloc, &proof.tree)?;
    Ok(Detached {
        hash: proof.hash,
        digest: proof.digest,
        tree,
    })
}
