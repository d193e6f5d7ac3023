//! One call of a reader or a writer of std, whose failure is counted.
ghost use Rattle.std.specs.Prelude.{◌≡◌, ◌<◌, length, IfOk};
ghost use Rattle.std.specs.Io.{ReadsAtMost, WritesAtMost};
ghost use Rattle.std.specs.Io.KnownBytes.{ReadConsumes, WriteAppends};
ghost use Rattle.ots_base.specs.Cause.{HasCause};
ghost use Rattle.ots_real.specs.Counting.{count_after};

use ots_outside::{Count, Failed};
use std::io::{ErrorKind, Read, Write};

/// Reads once. A call that a signal cut short is made again, and each other error is counted.
pub fn read_counted<R: Read>(
    reader: &mut R,
    faults: &mut Count,
    buf: &mut [u8],
) -> Result<usize, Failed>
    ensures bound { ReadsAtMost result buf.new }
    ensures reader { ReadConsumes (R.remaining reader.old) (R.remaining reader.new) result buf.new }
    ensures cause { HasCause faults.old faults.new result }
    ensures counted { faults.new ≡ count_after faults.old result }
{
    for _ in 0..u64::MAX {
        match reader.read(buf) {
            Ok(count) => return Ok(count),
            Err(error) if error.kind() == ErrorKind::Interrupted => {}
            Err(_) => break,
        }
    }
    faults.rise();
    Err(Failed)
}

/// Writes once. A call that a signal cut short is made again; each other error is counted, and so
/// is a write that took nothing of a piece that isn't empty.
pub fn write_counted<W: Write>(
    writer: &mut W,
    faults: &mut Count,
    piece: &[u8],
) -> Result<usize, Failed>
    ensures bound { WritesAtMost result piece.now }
    ensures some { 0 < length piece.now → IfOk result (λ count. 0 < count) }
    ensures writer { WriteAppends (W.contents writer.old) (W.contents writer.new) result piece.now }
    ensures cause { HasCause faults.old faults.new result }
    ensures counted { faults.new ≡ count_after faults.old result }
{
    for _ in 0..u64::MAX {
        match writer.write(piece) {
            Ok(count) if count > 0 || piece.is_empty() => return Ok(count),
            Err(error) if error.kind() == ErrorKind::Interrupted => {}
            _ => break,
        }
    }
    faults.rise();
    Err(Failed)
}
