//! A reply that is written.
ghost use Rattle.std.specs.Prelude.{◌≤◌};
ghost use Rattle.ots_http.specs.ReplyText.{IsReply};
ghost use Rattle.ots_connection.specs.Sending.{Sends};

use crate::Served;
use crate::due::Due;
use ots_http::write_reply;
use ots_outside::Link;

/// Writes what is due.
pub(crate) fn send<L: Link>(link: &mut L, due: Due) -> Served
    requires { IsReply due.reply }
    ensures sends { Sends due (record { told = L.told link.old; faults = L.faults link.old })
        (record { told = L.told link.new; faults = L.faults link.new }) result }
    ensures later { L.faults link.old ≤ L.faults link.new }
    ensures same { L.same link.old link.new }
{
    match write_reply(link, &due.reply) {
        Ok(()) => due.served,
        Err(_) => Served::LinkFault,
    }
}
