//! A reply that is written.
ghost use Rattle.std.specs.Prelude.{◌≡◌, ◌≤◌};
ghost use Rattle.ots_http.specs.ReplyText.{IsReply};
ghost use Rattle.ots_gateway.specs.Round.{Sends, served_by};

use crate::served::GateServed;
use ots_http::{Reply, write_reply};
use ots_outside::Link;

/// Writes a reply.
pub(crate) fn send<L: Link>(link: &mut L, reply: Reply) -> GateServed
    requires { IsReply reply }
    ensures sends { Sends reply (record { told = L.told link.old; faults = L.faults link.old })
        (record { told = L.told link.new; faults = L.faults link.new }) result }
    ensures later { L.faults link.old ≤ L.faults link.new }
{
    match write_reply(link, &reply) {
        Ok(()) => served_by(reply),
        Err(_) => GateServed::LinkFault,
    }
}

/// How a link is served whose reply was written.
fn served_by(reply: Reply) -> GateServed
    ensures { result ≡ served_by reply }
{
    match reply {
        Reply::Tree(tree) => GateServed::Stamped(tree),
        Reply::Page(_) => GateServed::Replied(200),
        Reply::Text(status, _) => GateServed::Replied(status),
    }
}
