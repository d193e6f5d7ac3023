//! Printing: a line for each round, and then how the run ended.
ghost use Rattle.std.specs.Prelude.{◌≡◌, ℕ, List, MatchResult};
ghost use Rattle.ots_base.specs.Cause.{Rose};
ghost use Rattle.ots_outside.specs.Streams.{Takes, TakesPrefix};
ghost use Rattle.ots_printer.specs.Printing.{Puts};
ghost use Rattle.ots_outputs.specs.Printed.{PrintsLastOr, SinkStays};
ghost use Rattle.ots_mirror_words.specs.Lines.{round_line};
ghost use Rattle.ots_mirror_words.specs.declared.status.MirrorStatus.TheVariants.{WriteFault};
ghost use Rattle.ots_mirror.specs.Printed.{end_text};

use ots_mirror_words::{MirrorStatus, RoundOutcome, put_records, put_refusal, put_round};
use ots_outputs::{PrintedText, print_whole};
use ots_outside::{Failed, Sink};
use ots_printer::Printer;

/// Prints the line of a round.
pub fn print_round<K: Sink>(outcome: &RoundOutcome, out: &mut K) -> Result<(), Failed>
    ensures printed { MatchResult result (λ _. Takes (K.taken out.old) (K.taken out.new) (round_line outcome.now))
        (λ _. Rose (K.faults out.old) (K.faults out.new)
        × TakesPrefix (K.taken out.old) (K.taken out.new) (round_line outcome.now)) }
    ensures sink { SinkStays K.faults K.same out.old out.new }
{
    print_whole(&RoundText { outcome }, out)
}

/// Prints how a run ended that has this status: how many records the mirror has, where all rounds
/// were made that were to be made, and else the line of the refusal.
pub fn print_end<K: Sink>(status: MirrorStatus, records: u64, out: &mut K) -> MirrorStatus
    ensures printed { PrintsLastOr WriteFault (Rose (K.faults out.old) (K.faults out.new)) status
        (end_text status records) (K.taken out.old) (K.taken out.new) result }
    ensures sink { SinkStays K.faults K.same out.old out.new }
{
    match print_whole(&EndText { status, records }, out) {
        Ok(()) => status,
        Err(Failed) => MirrorStatus::WriteFault,
    }
}

/// The line of a round.
#[derive(Clone, Copy)]
struct RoundText<'a> {
    outcome: &'a RoundOutcome,
}

impl PrintedText for RoundText<'_> {
    ghost use Rattle.std.specs.Prelude.{◌≡◌};
    ghost use Rattle.ots_mirror_words.specs.Lines.{round_line};

    ghost is_text = { λ t bytes. bytes ≡ round_line t.outcome.now };

    fn put<K: Sink>(&self, out: &mut Printer<'_, K>) {
        put_round(self.outcome, out);
    }
}

/// How a run with this status ended.
#[derive(Clone, Copy)]
struct EndText {
    status: MirrorStatus,
    records: u64,
}

impl PrintedText for EndText {
    ghost use Rattle.std.specs.Prelude.{◌≡◌};
    ghost use Rattle.ots_mirror.specs.Printed.{end_text};

    ghost is_text = { λ t bytes. bytes ≡ end_text t.status t.records };

    fn put<K: Sink>(&self, out: &mut Printer<'_, K>) {
        put_end(&self.status, self.records, out);
    }
}

/// Puts it.
fn put_end<K: Sink>(status: &MirrorStatus, records: u64, out: &mut Printer<'_, K>)
    ensures { Puts K.taken K.faults K.same (end_text status.now records) out.old out.new }
{
    match status {
        MirrorStatus::Done | MirrorStatus::Behind => put_records(records, out),
        _ => put_refusal(status, out),
    }
}
