//! Reading a proof file.
ghost use Rattle.std.specs.Prelude.{◌≡◌, ◌+◌, ◌^◌, ◌<◌, ◌≤◌, length, Ok, Err, IfOk, IfErr, IsErrOf};
ghost use Rattle.ots_base.specs.Cause.{HasCauseWhere};
ghost use Rattle.ots_base.specs.Memory.{UnlessOutOfMemory};
ghost use Rattle.ots_tree.specs.declared.detached.Detached.{Detached};
ghost use Rattle.ots_reader.specs.declared.fault.Fault.{Fault};
ghost use Rattle.ots_detached.specs.File.{IsFileOf, IsHeader};
ghost use Rattle.ots_detached.specs.FileFault.{HasFault};
ghost use Rattle.ots_detached.specs.FileRead.{IsFileError, ReadsFile, moved_error, place_of};

use crate::header::{FileHeader, read_header};
use ots_base::MAX_PROOF_FILE;
use ots_outside::{ReadAllError, Source, read_all};
use ots_reader::{Fault, ReadError, Reason, read_tree};
use ots_tree::{Detached, Shape};
use std::alloc::Global;

/// Why no proof was read.
#[derive(Clone, Copy, Debug, PartialEq, Eq)]
pub enum FileError {
    /// A read failed, and the source has counted the fault.
    ReadFault,
    /// The input has more than 4,194,304 bytes.
    TooBig,
    /// The input is no proof file: where and why.
    BadProof(Fault),
    /// Memory ran out.
    OutOfMemory,
}

/// The proof that a source's whole input is. It reads at most 4,194,305 bytes.
///
/// `ReadFault` comes only where the source's count of faults rose, `TooBig` exactly where more than
/// 4,194,304 bytes came, whatever they are, and `BadProof` with the fault of the input.
pub fn read_file<S: Source>(alloc: Global, source: &mut S) -> Result<Detached, FileError>
    ensures input { ReadsFile (S.left source.old) (S.left source.new) result }
    ensures cause { HasCauseWhere (IsErrOf result FileError.ReadFault) (S.faults source.old) (S.faults source.new) }
    ensures same { S.same source.old source.new }
{
    match read_all(alloc, source, MAX_PROOF_FILE as u64) {
        Ok(bytes) => read_bytes(alloc, &bytes),
        Err(ReadAllError::ReadFault) => Err(FileError::ReadFault),
        Err(ReadAllError::TooBig) => Err(FileError::TooBig),
        Err(ReadAllError::OutOfMemory) => Err(FileError::OutOfMemory),
    }
}

/// The proof that these bytes are the file of, or the refusal of `read_file`, but for `ReadFault`.
pub fn read_bytes(alloc: Global, bytes: &[u8]) -> Result<Detached, FileError>
    ensures ok { IfOk result (IsFileOf bytes.now) }
    ensures err { IfErr result (IsFileError bytes.now) }
    ensures accepts { (proof : Detached) → IsFileOf bytes.now proof
        → UnlessOutOfMemory FileError.OutOfMemory result (Ok proof) }
    ensures refuses { (f : Fault) → length bytes.now ≤ MAX_PROOF_FILE → HasFault bytes.now f
        → UnlessOutOfMemory FileError.OutOfMemory result (Err (FileError.BadProof f)) }
    ensures too_big { MAX_PROOF_FILE < length bytes.now → result ≡ Err FileError.TooBig }
{
    if bytes.len() > MAX_PROOF_FILE {
        return Err(FileError::TooBig);
    }
    match read_header(bytes) {
        Ok(header) => read_after(alloc, bytes, header),
        Err(fault) => Err(FileError::BadProof(fault)),
    }
}

/// The proof after a header.
#[tactic(auto, using(crate::proofs::Files::error_place))]
fn read_after(alloc: Global, bytes: &[u8], header: FileHeader) -> Result<Detached, FileError>
    requires size { length bytes.now ≤ MAX_PROOF_FILE }
    requires header { IsHeader bytes.now header.hash header.digest }
    ensures ok { IfOk result (IsFileOf bytes.now) }
    ensures err { IfErr result (IsFileError bytes.now) }
{
    let length = header.digest.bytes().len();
    let start = 33 + length;
    let shape = Shape {
        length: length as u32,
        depth: 0,
    };
    let (tree, used) = match read_tree(alloc, &bytes[start..], shape) {
        Ok(read) => read,
        Err(error) => return Err(moved_error(start, error)),
    };
    let end = start + used;
    if end < bytes.len() {
        return Err(FileError::BadProof(Fault {
            place: end as u64,
            reason: Reason::TrailingBytes,
        }));
    }
    Ok(Detached {
        hash: header.hash,
        digest: header.digest,
        tree,
    })
}

/// The refusal of a tree that stands at this place, as a refusal of the file.
fn moved_error(start: usize, error: ReadError) -> FileError
    requires { start + place_of error < 2 ^ 64 }
    ensures { result ≡ moved_error start error }
{
    match error {
        ReadError::Fault(fault) => FileError::BadProof(Fault {
            place: start as u64 + fault.place,
            reason: fault.reason,
        }),
        ReadError::OutOfMemory => FileError::OutOfMemory,
    }
}
