//! Reading from a link into a buffer.
ghost use Rattle.std.specs.Prelude.{◌≡◌, ◌≤◌, ◌<◌, ◌+◌, ◌-◌, ◌++◌, length, min, take, drop, IfOk};
ghost use Rattle.ots_base.specs.Cause.{HasCause};
ghost use Rattle.ots_base.specs.Told.{IfTold};
ghost use Rattle.ots_http.specs.Given.{GivesAtMost};
ghost use Rattle.ots_http.specs.Reading.{ReadsMore, HoldsPrefix};

use ots_outside::{Failed, Link};

/// Reads to after the first `filled` bytes of the buffer, up to the first `end`.
pub(crate) fn read_after<L: Link>(
    link: &mut L,
    buffer: &mut [u8],
    filled: usize,
    end: usize,
) -> Result<usize, Failed>
    requires room { filled < end }
    requires within { end ≤ length buffer.old }
    ensures more { ReadsMore (L.told link.old) (L.told link.new) buffer.old buffer.new filled end result }
    ensures cause { HasCause (L.faults link.old) (L.faults link.new) result }
    ensures same { L.same link.old link.new }
{
    link.read(&mut buffer[filled..end])
}

/// Reads on after the first `filled` bytes until `end` bytes stand in the buffer or the input ends,
/// and answers how many stand there. Where `filled` is past `end` already, it reads nothing.
pub(crate) fn read_on<L: Link>(
    link: &mut L,
    buffer: &mut [u8],
    filled: usize,
    end: usize,
) -> Result<usize, Failed>
    requires filled { filled ≤ length buffer.old }
    requires within { end ≤ length buffer.old }
    ensures whole { IfTold (L.told link.old) (λ told. IfOk result
        (λ count. HoldsPrefix (take filled buffer.old ++ told.left) end buffer.new count)) }
    ensures least { IfOk result (λ count. min filled end ≤ count) }
    ensures most { IfOk result (λ count. count ≤ end) }
    ensures came { GivesAtMost (end - filled) (L.told link.old) (L.told link.new) }
    ensures cause { HasCause (L.faults link.old) (L.faults link.new) result }
    ensures same { L.same link.old link.new }
{
    let mut at = filled;
    while at < end {
        let count = read_after(link, buffer, at, end)?;
        if count == 0 {
            return Ok(at);
        }
        at += count;
    }
    Ok(at.min(end))
}
