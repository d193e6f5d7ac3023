//! The head of a message, read from a link.
ghost use Rattle.std.specs.Prelude.{◌≡◌, ◌≤◌, ◌<◌, ℕ, List, ◌++◌, length, take, false, IfOk, OnErr};
ghost use Rattle.httparse.specs.Outcome.{IfComplete, OnPartial};
ghost use Rattle.httparse.specs.declared.spans.HeaderSpan.{HeaderSpan};
ghost use Rattle.ots_base.specs.Cause.{HasCause};
ghost use Rattle.ots_http.specs.Given.{GivesAtMost};
ghost use Rattle.ots_http.specs.HeadRead.{IsHeadRead, IsUndecided, at_end};
ghost use Rattle.ots_http.specs.LineEnds.{IsBlank};

use crate::limits::{MAX_FIELDS, MAX_HEAD};
use crate::line_ends::has_begun;
use crate::reading::read_after;
use httparse::Status;
use httparse::spans::HeaderSpan;
use ots_outside::{Failed, Link};

/// Where the parts of a head stand in the bytes that begin with it: of a request's, or of a reply's.
pub(crate) trait Head: Copy {
    /// These are the parts of the head that the bytes begin with.
    ghost covers: { List ℕ → List HeaderSpan → Self → Type 0 };

    /// The bytes begin with no such head.
    ghost none: { List ℕ → Type 0 };

    /// An input begins with no such head within the limits.
    ghost outside: { List ℕ → Type 0 };

    /// Parses the head in what came, of which all but the first `before` bytes are new. It looks for one
    /// only where one may end in them.
    fn parse(
        came: &[u8],
        before: usize,
        begun: bool,
        fields: &mut [HeaderSpan],
    ) -> httparse::Result<Self>
        requires before { before ≤ length came.now }
        requires some { 1 ≤ length came.now }
        requires room { length fields.old ≡ MAX_FIELDS }
        requires none { 0 < before → none (take before came.now) }
        requires blank { begun ≡ false → IsBlank came.now }
        ensures covers { IfComplete result (covers came.now fields.new) }
        ensures undecided { OnPartial result (IsUndecided none outside came.now) }
        ensures never { OnErr result ((more : List ℕ) → outside (came.now ++ more)) };
}

/// What reading a head came to.
#[derive(Clone, Copy)]
pub(crate) enum HeadRead<H> {
    /// The head, and how many bytes came in all.
    Head(H, usize),
    /// No prefix of the input is a head.
    NoHead,
    /// The link ended before its first byte.
    Ended,
}

/// The head that a link's input begins with. It reads at most `MAX_HEAD` bytes, up to the end of input,
/// to the piece in which a head ends, or to one after which no head can come.
pub(crate) fn read_head<H: Head, L: Link>(
    link: &mut L,
    buffer: &mut [u8],
    fields: &mut [HeaderSpan],
) -> Result<HeadRead<H>, Failed>
    requires room { MAX_HEAD ≤ length buffer.old }
    requires fields { length fields.old ≡ MAX_FIELDS }
    ensures came { GivesAtMost MAX_HEAD (L.told link.old) (L.told link.new) }
    ensures head { IfOk result (IsHeadRead H.covers H.outside (L.told link.old) (L.told link.new) buffer.new
        fields.new) }
    ensures cause { HasCause (L.faults link.old) (L.faults link.new) result }
    ensures same { L.same link.old link.new }
{
    let mut filled = 0;
    let mut begun = false;
    while filled < MAX_HEAD {
        let count = read_after(link, buffer, filled, MAX_HEAD)?;
        if count == 0 {
            return Ok(at_end(filled));
        }
        begun = has_begun(begun, &buffer[filled..filled + count]);
        match H::parse(&buffer[..filled + count], filled, begun, fields) {
            Ok(Status::Complete(head)) => return Ok(HeadRead::Head(head, filled + count)),
            Ok(Status::Partial) => {}
            Err(_) => return Ok(HeadRead::NoHead),
        }
        filled += count;
    }
    Ok(HeadRead::NoHead)
}

/// What an input of `filled` bytes without a head is.
fn at_end<H>(filled: usize) -> HeadRead<H>
    ensures { result ≡ at_end filled }
{
    if filled == 0 {
        return HeadRead::Ended;
    }
    HeadRead::NoHead
}
