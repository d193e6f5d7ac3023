//! The lines of a run.
ghost use Rattle.std.specs.Prelude.{◌≡◌, zip};
ghost use Rattle.std.specs.List.{flat_map};
ghost use Rattle.ots_lines.specs.Lines.{calendar_line};
ghost use Rattle.ots_printer.specs.Printing.{Puts};
ghost use Rattle.ots_gateway_words.specs.Lines.{listening_line, round_lines};

use ots_address::Address;
use ots_asking::Outcome;
use ots_lines::put_calendars;
use ots_outputs::put_number;
use ots_outside::Sink;
use ots_printer::Printer;

/// Puts the line of a port that is listened on.
pub fn put_listening<K: Sink>(port: u16, out: &mut Printer<'_, K>)
    ensures { Puts K.taken K.faults K.same (listening_line port) out.old out.new }
{
    put_number("listening ", port as u64, out);
}

/// Puts the lines of a round: what came of asking each calendar that has an outcome, in order, and how
/// many links were stamped.
pub fn put_round<K: Sink>(
    calendars: &[Address],
    outcomes: &[Outcome],
    stamped: u64,
    out: &mut Printer<'_, K>,
)
    ensures { Puts K.taken K.faults K.same (round_lines calendars.now outcomes.now stamped) out.old out.new }
{
    put_outcomes(calendars, outcomes, out);
    put_number("round ", stamped, out);
}

/// Puts a line for each calendar that has an outcome, in order: what came of asking it.
fn put_outcomes<K: Sink>(calendars: &[Address], outcomes: &[Outcome], out: &mut Printer<'_, K>)
    ensures { Puts K.taken K.faults K.same (flat_map calendar_line (zip calendars.now outcomes.now)) out.old out.new }
{
    let asked = calendars.len().min(outcomes.len());
    put_calendars(&calendars[..asked], &outcomes[..asked], out);
}
