//! Hashing a file.
ghost use Rattle.std.specs.Prelude.{◌≡◌, ◌+◌, ◌^◌, ◌<◌, ◌≤◌, length, IfOk, IsErrOf};
ghost use Rattle.ots_outside.specs.Streams.{Reads};
ghost use Rattle.ots_base.specs.Cause.{HasCause, HasCauseWhere};
ghost use Rattle.ots_detached.specs.SourceHash.{HashesSource};
ghost use Rattle.ots_detached.specs.declared.hashing.HashError.TheVariants.{ReadFault};

use ots_base::MAX_TARGET_FILE;
use ots_ops::{Digest, HashOp, Hasher};
use ots_outside::{Failed, Source};

/// How many bytes are read at once, at most.
const PIECE: usize = 65_536;

/// Why an input was not hashed.
#[derive(Clone, Copy, Debug, PartialEq, Eq)]
pub enum HashError {
    /// A read failed, and the source has counted the fault.
    ReadFault,
    /// The input has more bytes than the limit, which is this one.
    FileTooLong(u64),
}

impl From<Failed> for HashError {
    ghost from_gives = { λ _ e. e ≡ ReadFault };

    fn from(_: Failed) -> Self {
        HashError::ReadFault
    }
}

/// The digest that a hash makes of a source's whole input, where that has at most `limit` bytes.
/// The limit is at most `MAX_TARGET_FILE`, 2^40.
///
/// It reads in pieces of at most 65,536 bytes, to the end of input or to the first byte past the
/// limit, so at most `limit + 1` bytes. `FileTooLong` with the limit is answered exactly where that
/// byte came, and `ReadFault` only where the source's count of faults rose. It takes no memory.
pub fn hash_source<S: Source>(source: &mut S, hash: HashOp, limit: u64) -> Result<Digest, HashError>
    requires { limit ≤ MAX_TARGET_FILE }
    ensures input { HashesSource hash limit (S.left source.old) (S.left source.new) result }
    ensures cause { HasCauseWhere (IsErrOf result HashError.ReadFault) (S.faults source.old) (S.faults source.new) }
    ensures same { S.same source.old source.new }
{
    let mut piece = [0; PIECE];
    let mut hasher = Hasher::new(hash);
    let mut came = 0;
    while came <= limit {
        let count = read_piece(source, &mut piece, limit - came)?;
        if count == 0 {
            return Ok(hasher.finalize());
        }
        hasher.update(&piece[..count]);
        came += count as u64;
    }
    Err(HashError::FileTooLong(limit))
}

/// Reads into the start of a piece, at most one byte more than `left`.
fn read_piece<S: Source>(source: &mut S, piece: &mut [u8], left: u64) -> Result<usize, Failed>
    requires room { 0 < length piece.old }
    requires small { left ≤ MAX_TARGET_FILE }
    ensures room { IfOk result (λ count. count ≤ length piece.new) }
    ensures bound { IfOk result (λ count. count ≤ left + 1) }
    ensures bytes { Reads (S.left source.old) (S.left source.new) result piece.new }
    ensures cause { HasCause (S.faults source.old) (S.faults source.new) result }
    ensures same { S.same source.old source.new }
{
    let most = (left + 1).min(piece.len() as u64) as usize;
    source.read(&mut piece[..most])
}
