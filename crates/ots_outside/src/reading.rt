ghost use Rattle.std.specs.Prelude.{◌≡◌, ◌≤◌, ◌<◌, ◌+◌, length, take, drop, IfOk, OnOk, IsErrOf};
ghost use Rattle.ots_base.specs.Cause.{HasCause, HasCauseWhere};
ghost use Rattle.ots_outside.specs.Input.{ReadsAll};
ghost use Rattle.ots_outside.specs.Streams.{Reads};
ghost use Rattle.ots_outside.specs.declared.reading.ReadAllError.TheVariants.{OutOfMemory, ReadFault};

use crate::{Failed, Source};
use std::alloc::{AllocError, Global};

/// The room of the first read. After that the room doubles.
const FIRST_ROOM: usize = 65_536;

/// Why a whole input was not read.
#[derive(Clone, Copy, Debug, PartialEq, Eq)]
pub enum ReadAllError {
    /// A read failed, and the source has counted the fault.
    ReadFault,
    /// More than the limit came. The source has given one byte more than the limit.
    TooBig,
    /// Memory ran out.
    OutOfMemory,
}

impl From<AllocError> for ReadAllError {
    ghost from_gives = { λ _ e. e ≡ OutOfMemory };

    fn from(_: AllocError) -> Self {
        ReadAllError::OutOfMemory
    }
}

impl From<Failed> for ReadAllError {
    ghost from_gives = { λ _ e. e ≡ ReadFault };

    fn from(_: Failed) -> Self {
        ReadAllError::ReadFault
    }
}

/// The whole input of a source, where that has at most `limit` bytes.
///
/// It reads to the end of input or to the first byte past the limit, so at most `limit + 1` bytes,
/// straight into the vector that it answers. `TooBig` is answered exactly where that byte came,
/// and `ReadFault` only where the count of faults rose.
pub fn read_all<S: Source>(
    alloc: Global,
    source: &mut S,
    limit: u64,
) -> Result<Vec<u8>, ReadAllError>
    ensures input { ReadsAll limit (S.left source.old) (S.left source.new) result }
    ensures cause { HasCauseWhere (IsErrOf result ReadAllError.ReadFault) (S.faults source.old) (S.faults source.new) }
    ensures same { S.same source.old source.new }
{
    let mut bytes = Vec::new(alloc);
    let mut filled = 0;
    while filled as u64 <= limit {
        make_room(&mut bytes, filled, limit)?;
        let count = read_after(source, &mut bytes, filled)?;
        if count == 0 {
            bytes.truncate(filled);
            return Ok(bytes);
        }
        filled += count;
    }
    Err(ReadAllError::TooBig)
}

/// Leaves room after the first `filled` bytes, and none past the limit and one byte more. The room
/// grows by doubling, so that each byte is moved a few times at most.
fn make_room(bytes: &mut Vec<u8>, filled: usize, limit: u64) -> Result<(), AllocError>
    requires in_range { filled ≤ length bytes.old.items }
    requires within { filled ≤ limit }
    requires fits { length bytes.old.items ≤ limit + 1 }
    ensures room { OnOk result (filled < length bytes.new.items) }
    ensures fits { length bytes.new.items ≤ limit + 1 }
    ensures prefix { take filled bytes.new.items ≡ take filled bytes.old.items }
{
    if filled == bytes.len() {
        let more = (limit - filled as u64).min(filled.max(FIRST_ROOM) as u64) as usize;
        bytes.resize(filled + more + 1, 0)?;
    }
    Ok(())
}

/// Reads into the bytes after the first `filled`.
fn read_after<S: Source>(source: &mut S, bytes: &mut [u8], filled: usize) -> Result<usize, Failed>
    requires { filled < length bytes.old }
    ensures bound { IfOk result (λ count. filled + count ≤ length bytes.new) }
    ensures prefix { take filled bytes.new ≡ take filled bytes.old }
    ensures room { 0 < length (drop filled bytes.new) }
    ensures bytes { Reads (S.left source.old) (S.left source.new) result (drop filled bytes.new) }
    ensures cause { HasCause (S.faults source.old) (S.faults source.new) result }
    ensures same { S.same source.old source.new }
{
    source.read(&mut bytes[filled..])
}
