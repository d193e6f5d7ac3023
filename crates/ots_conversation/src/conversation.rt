//! One conversation with a calendar.
ghost use Rattle.ots_http.specs.RequestText.{request_bytes};
ghost use Rattle.ots_conversation.specs.Conversation.{Talks};
ghost use Rattle.ots_conversation.specs.Exchanged.{Exchanges};

use ots_address::Address;
use ots_http::{Asked, HttpReply, ReplyError, read_reply, write_request};
use ots_outside::{DialError, DialedLink, Dialer, Link};
use std::alloc::Global;

/// Asks a calendar in a conversation of its own, and reads its reply. Each slot of the dialer is afterwards as it was.
///
/// The errors are those of [`read_reply`], and two of them come for more. `LinkFault` comes also where no conversation
/// could be begun and where the request was not sent whole; the dialer has counted the fault. `OutOfMemory` comes also
/// where memory ran out before the conversation began, and then nothing was sent and no reply taken.
pub fn converse<D: Dialer>(
    alloc: Global,
    dialer: &mut D,
    address: &Address,
    asked: &Asked,
) -> Result<HttpReply, ReplyError>
    ensures { Talks D.told D.faults (record { address = address.now; asked = asked.now }) dialer.old dialer.new result }
{
    let slot = match dialer.connect(address.host(), address.port()) {
        Ok(slot) => slot,
        Err(DialError::Failed) => return Err(ReplyError::LinkFault),
        Err(DialError::OutOfMemory) => return Err(ReplyError::OutOfMemory),
    };
    let read = exchange(alloc, &mut DialedLink::new(dialer, slot), address, asked);
    dialer.close(slot);
    read
}

/// Writes the request, and reads its reply.
fn exchange<L: Link>(
    alloc: Global,
    link: &mut L,
    address: &Address,
    asked: &Asked,
) -> Result<HttpReply, ReplyError>
    ensures exchanged { Exchanges (request_bytes address.now asked.now) (L.told link.old) (L.told link.new)
        (L.faults link.old) (L.faults link.new) result }
    ensures same { L.same link.old link.new }
{
    if write_request(link, address, asked).is_err() {
        return Err(ReplyError::LinkFault);
    }
    read_reply(alloc, link)
}
