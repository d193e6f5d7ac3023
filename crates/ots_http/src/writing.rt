//! Writing to a link.
ghost use Rattle.ots_base.specs.Cause.{HasCause};
ghost use Rattle.ots_http.specs.Written.{WritesAll};

use ots_outside::{Failed, Link, LinkSink, write_all};
use ots_tree::WriteFault;

/// A write failed, and the link has counted the fault.
#[derive(Clone, Copy, Debug, PartialEq, Eq)]
pub struct LinkFault;

impl From<Failed> for LinkFault {
    fn from(_: Failed) -> Self {
        LinkFault
    }
}

impl From<WriteFault> for LinkFault {
    fn from(_: WriteFault) -> Self {
        LinkFault
    }
}

/// Writes these bytes in one piece, as far as the link takes it, or a prefix of them where a write
/// fails.
pub(crate) fn write_bytes<L: Link>(link: &mut L, bytes: &[u8]) -> Result<(), LinkFault>
    ensures written { WritesAll bytes.now (L.told link.old) (L.told link.new) result }
    ensures cause { HasCause (L.faults link.old) (L.faults link.new) result }
    ensures same { L.same link.old link.new }
{
    match write_all(&mut LinkSink::new(link), bytes) {
        Ok(()) => Ok(()),
        Err(_) => Err(LinkFault),
    }
}
