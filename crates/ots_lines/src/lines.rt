//! The lines that are printed of conversations with calendars, put piece after piece.
ghost use Rattle.std.specs.Prelude.{◌≡◌, ◌++◌, ◌≤◌, None, Some, codes, length, zip};
ghost use Rattle.std.specs.List.{flat_map};
ghost use Rattle.std.specs.Option.{option_copied};
ghost use Rattle.ots_asking.specs.declared.outcome.Outcome.TheVariants.{BadReply};
ghost use Rattle.ots_info.specs.Listing.{or_dash};
ghost use Rattle.ots_lines.specs.Lines.{calendar_line, outcome_words, uri_line};
ghost use Rattle.ots_printer.specs.Printing.{Puts};

use ots_address::Address;
use ots_asking::Outcome;
use ots_outside::Sink;
use ots_printer::Printer;
use ots_reader::Fault;

/// Puts a line for each calendar: what came of asking it. There is an outcome for each.
pub fn put_calendars<K: Sink>(calendars: &[Address], outcomes: &[Outcome], out: &mut Printer<'_, K>)
    requires { length outcomes.now ≡ length calendars.now }
    ensures { Puts K.taken K.faults K.same (flat_map calendar_line (zip calendars.now outcomes.now)) out.old out.new }
{
    for (at, outcome) in outcomes.iter().enumerate() {
        put_calendar(&calendars[at], outcome, out);
    }
}

/// Puts the line of a calendar.
fn put_calendar<K: Sink>(calendar: &Address, outcome: &Outcome, out: &mut Printer<'_, K>)
    ensures { Puts K.taken K.faults K.same (calendar_line (calendar.now, outcome.now)) out.old out.new }
{
    out.word(calendar.text());
    out.word(" ");
    put_outcome(outcome, out);
    out.word("\n");
}

/// Puts the line of a URI that a proof asks for: what came of asking, or that no calendar was asked.
pub fn put_pair<K: Sink>(uri: &str, outcome: Option<&Outcome>, out: &mut Printer<'_, K>)
    ensures { Puts K.taken K.faults K.same (uri_line uri.now (option_copied outcome.entry)) out.old out.new }
{
    match outcome {
        Some(outcome) => put_uri_line(uri, outcome, out),
        None => put_skipped(uri, out),
    }
}

/// Puts the line of a URI whose calendar was asked.
fn put_uri_line<K: Sink>(uri: &str, outcome: &Outcome, out: &mut Printer<'_, K>)
    ensures { Puts K.taken K.faults K.same (uri_line uri.now (Some outcome.now)) out.old out.new }
{
    put_uri(uri, out);
    out.word(" ");
    put_outcome(outcome, out);
    out.word("\n");
}

/// Puts the line of a URI that no calendar was asked for.
fn put_skipped<K: Sink>(uri: &str, out: &mut Printer<'_, K>)
    ensures { Puts K.taken K.faults K.same (uri_line uri.now None) out.old out.new }
{
    out.word("skipped ");
    put_uri(uri, out);
    out.word("\n");
}

/// Puts a URI, a dash where it is empty.
fn put_uri<K: Sink>(uri: &str, out: &mut Printer<'_, K>)
    ensures { Puts K.taken K.faults K.same (or_dash uri.now) out.old out.new }
{
    out.word(if uri.is_empty() { "-" } else { uri });
}

/// Puts the words of what came of asking a calendar.
fn put_outcome<K: Sink>(outcome: &Outcome, out: &mut Printer<'_, K>)
    ensures { Puts K.taken K.faults K.same (outcome_words outcome.now) out.old out.new }
{
    match outcome {
        Outcome::Tree(_) => out.word("ok"),
        Outcome::Unreachable => out.word("unreachable"),
        Outcome::Status(code) => put_status(*code, out),
        Outcome::TooLong => out.word("too long"),
        Outcome::BadHttp => out.word("not http"),
        Outcome::BadReply(fault) => put_fault(*fault, out),
    }
}

/// Puts the words for a status.
fn put_status<K: Sink>(code: u16, out: &mut Printer<'_, K>)
    ensures { Puts K.taken K.faults K.same (outcome_words (Outcome.Status code)) out.old out.new }
{
    out.word("status ");
    out.number(code as u64);
}

/// Puts the words for a body that is no tree.
fn put_fault<K: Sink>(fault: Fault, out: &mut Printer<'_, K>)
    ensures { Puts K.taken K.faults K.same (outcome_words (BadReply fault)) out.old out.new }
{
    out.word("bad reply at ");
    out.number(fault.place);
    out.word(": ");
    out.word(fault.reason.words());
}
