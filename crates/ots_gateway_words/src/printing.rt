//! Printing: the port that is listened on, the lines of each round, and why a run ended.
ghost use Rattle.std.specs.Prelude.{◌≡◌};
ghost use Rattle.ots_base.specs.Cause.{Rose};
ghost use Rattle.ots_outputs.specs.Printed.{PrintsLastOr, SinkStays};
ghost use Rattle.ots_gateway_words.specs.Lines.{listening_line, round_lines};
ghost use Rattle.ots_gateway_words.specs.Printed.{PrintsText};
ghost use Rattle.ots_gateway_words.specs.Refusal.{refusal_text};
ghost use Rattle.ots_gateway_words.specs.declared.status.GateStatus.TheVariants.{WriteFault};

use crate::lines::{put_listening, put_round};
use crate::refusal::put_refusal;
use crate::status::GateStatus;
use ots_address::Address;
use ots_asking::Outcome;
use ots_outputs::{PrintedText, print_whole};
use ots_outside::{Failed, Sink};
use ots_printer::Printer;

/// Prints the line of a port that is listened on.
///
/// # Errors
///
/// [`Failed`] where the sink counted a fault. It has taken a prefix of the line.
pub fn print_listening<K: Sink>(port: u16, out: &mut K) -> Result<(), Failed>
    ensures printed { PrintsText (Rose (K.faults out.old) (K.faults out.new)) (listening_line port)
        (K.taken out.old) (K.taken out.new) result }
    ensures sink { SinkStays K.faults K.same out.old out.new }
{
    print_whole(&ListeningText { port }, out)
}

/// Prints the lines of a round: what came of asking each calendar, where any was asked, and how many
/// links were stamped. There is an outcome for each calendar, in their order, or none.
///
/// # Errors
///
/// [`Failed`] where the sink counted a fault. It has taken a prefix of the lines.
pub fn print_round<K: Sink>(
    calendars: &[Address],
    outcomes: &[Outcome],
    stamped: u64,
    out: &mut K,
) -> Result<(), Failed>
    ensures printed { PrintsText (Rose (K.faults out.old) (K.faults out.new))
        (round_lines calendars.now outcomes.now stamped) (K.taken out.old) (K.taken out.new) result }
    ensures sink { SinkStays K.faults K.same out.old out.new }
{
    print_whole(
        &RoundText {
            calendars,
            outcomes,
            stamped,
        },
        out,
    )
}

/// Prints the line of a run's refusal, with which the run ends, or nothing where the status has none. It
/// answers that status, or `WriteFault` where the sink counted a fault.
pub fn print_refusal<K: Sink>(status: GateStatus, out: &mut K) -> GateStatus
    ensures printed { PrintsLastOr WriteFault (Rose (K.faults out.old) (K.faults out.new)) status
        (refusal_text status) (K.taken out.old) (K.taken out.new) result }
    ensures sink { SinkStays K.faults K.same out.old out.new }
{
    match print_whole(&RefusalText { status }, out) {
        Ok(()) => status,
        Err(Failed) => GateStatus::WriteFault,
    }
}

/// The line of a port that is listened on.
#[derive(Clone, Copy)]
struct ListeningText {
    port: u16,
}

impl PrintedText for ListeningText {
    ghost use Rattle.std.specs.Prelude.{◌≡◌};
    ghost use Rattle.ots_gateway_words.specs.Lines.{listening_line};

    ghost is_text = { λ t bytes. bytes ≡ listening_line t.port };

    fn put<K: Sink>(&self, out: &mut Printer<'_, K>) {
        put_listening(self.port, out);
    }
}

/// The lines of a round.
#[derive(Clone, Copy)]
struct RoundText<'a> {
    calendars: &'a [Address],
    outcomes: &'a [Outcome],
    stamped: u64,
}

impl PrintedText for RoundText<'_> {
    ghost use Rattle.std.specs.Prelude.{◌≡◌};
    ghost use Rattle.ots_gateway_words.specs.Lines.{round_lines};

    ghost is_text = { λ t bytes. bytes ≡ round_lines t.calendars.now t.outcomes.now t.stamped };

    fn put<K: Sink>(&self, out: &mut Printer<'_, K>) {
        put_round(self.calendars, self.outcomes, self.stamped, out);
    }
}

/// The line of a refusal.
#[derive(Clone, Copy)]
struct RefusalText {
    status: GateStatus,
}

impl PrintedText for RefusalText {
    ghost use Rattle.std.specs.Prelude.{◌≡◌};
    ghost use Rattle.ots_gateway_words.specs.Refusal.{refusal_text};

    ghost is_text = { λ t bytes. bytes ≡ refusal_text t.status };

    fn put<K: Sink>(&self, out: &mut Printer<'_, K>) {
        put_refusal(&self.status, out);
    }
}
