//! The lines that are printed of what a proof asks calendars for.
ghost use Rattle.std.specs.List.{flat_map};
ghost use Rattle.ots_completing.specs.Upgrade.{asked_line};
ghost use Rattle.ots_printer.specs.Printing.{Puts};

use ots_lines::put_pair;
use ots_outside::Sink;
use ots_printer::Printer;
use ots_upgrade::AskedList;

/// Puts a line for each pair of a URI and a message that a proof asks for: what came of asking, or
/// that no calendar was asked.
pub(crate) fn put_asked<K: Sink>(asked: &AskedList, out: &mut Printer<'_, K>)
    ensures { Puts K.taken K.faults K.same (flat_map asked_line asked.now) out.old out.new }
{
    for i in 0..asked.len() {
        put_pair(asked.uri(i).text(), asked.outcome(i), out);
    }
}
