//! The lines of a run.
ghost use Rattle.std.specs.Prelude.{◌≡◌};
ghost use Rattle.ots_printer.specs.Printing.{Puts};
ghost use Rattle.ots_mirror_words.specs.Lines.{records_line, round_line};

use crate::outcome::RoundOutcome;
use ots_outputs::put_number;
use ots_outside::Sink;
use ots_printer::Printer;

/// Puts the line of a round.
pub fn put_round<K: Sink>(outcome: &RoundOutcome, out: &mut Printer<'_, K>)
    ensures { Puts K.taken K.faults K.same (round_line outcome.now) out.old out.new }
{
    match outcome {
        RoundOutcome::Took(count) => put_number("took ", *count, out),
        RoundOutcome::Current => out.word("current\n"),
        RoundOutcome::BadPage => out.word("bad page\n"),
        RoundOutcome::Unreachable => out.word("unreachable\n"),
        RoundOutcome::Status(code) => put_number("status ", *code as u64, out),
        RoundOutcome::TooLong => out.word("too long\n"),
        RoundOutcome::BadHttp => out.word("not http\n"),
    }
}

/// Puts the line of how many records the mirror has at the end.
pub fn put_records<K: Sink>(count: u64, out: &mut Printer<'_, K>)
    ensures { Puts K.taken K.faults K.same (records_line count) out.old out.new }
{
    put_number("records ", count, out);
}
