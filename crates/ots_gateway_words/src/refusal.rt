//! The line of a refusal.
ghost use Rattle.std.specs.Prelude.{◌≡◌};
ghost use Rattle.ots_printer.specs.Printing.{Puts};
ghost use Rattle.ots_gateway_words.specs.Refusal.{refusal_text};

use crate::status::GateStatus;
use ots_outputs::put_bad_address;
use ots_outside::Sink;
use ots_printer::Printer;

/// Puts the line of a refusal, or nothing where the status has none.
pub fn put_refusal<K: Sink>(status: &GateStatus, out: &mut Printer<'_, K>)
    ensures { Puts K.taken K.faults K.same (refusal_text status.now) out.old out.new }
{
    match status {
        GateStatus::Usage => {
            out.word("usage: otsgate --calendars LIST --min M --port P --round K\n")
        }
        GateStatus::BadAddress { place, https } => put_bad_address(*place, *https, out),
        GateStatus::AcceptFault => out.word("accept fault\n"),
        GateStatus::Done | GateStatus::WriteFault | GateStatus::OutOfMemory => {}
    }
}
