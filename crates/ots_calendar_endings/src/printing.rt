//! Printing, with which each run ends.
ghost use Rattle.std.specs.Prelude.{◌≡◌, ℕ, List, MatchResult};
ghost use Rattle.ots_base.specs.Cause.{Rose};
ghost use Rattle.ots_outside.specs.Streams.{Takes, TakesPrefix};
ghost use Rattle.ots_printer.specs.Printing.{Puts};
ghost use Rattle.ots_calendar_text.specs.Lines.{listening_line};
ghost use Rattle.ots_calendar_text.specs.Refusal.{refusal_text};
ghost use Rattle.ots_calendar_endings.specs.Printed.{PrintsLast, text_of};
ghost use Rattle.ots_calendar_endings.specs.RunEnd.{status_of};
ghost use Rattle.ots_outputs.specs.Printed.{SinkStays};

use ots_calendar_text::{
    DaemonStatus, put_anchored, put_listening, put_migrated, put_refusal, put_served, put_tip,
};
use ots_inputs::{InputError, Stop};
use ots_outputs::{PrintedText, print_whole};
use ots_outside::{Failed, Sink};
use ots_printer::Printer;
use ots_store::Tip;

/// A text with which a run ends, but for those that are long.
#[derive(Clone, Copy)]
pub enum Text<'a> {
    /// The line of the run's status, a refusal over this name.
    Refusal(&'a str),
    /// The line of a tip.
    Tip(Tip),
    /// The line of an anchor that was stored: its first index, its count, and the block's height.
    Anchored(u64, u64, u64),
    /// The line of a journal that was carried over: how many entries it has.
    Migrated(u64),
    /// The line of a port that is listened on.
    Listening(u16),
    /// The line of how many links were accepted, and that of the run's status.
    Served(u64),
}

/// Prints the line of a refusal over a name, with which a run ends.
pub fn refuse<K: Sink>(name: &str, status: DaemonStatus, out: &mut K) -> DaemonStatus
    ensures printed { PrintsLast (Rose (K.faults out.old) (K.faults out.new)) status
        (refusal_text name.now status) (K.taken out.old) (K.taken out.new) result }
    ensures sink { SinkStays K.faults K.same out.old out.new }
{
    print(&Text::Refusal(name), status, out)
}

/// Prints why a name gave no input, or nothing where memory ran out.
pub fn refuse_input<K: Sink>(stop: Stop<'_, DaemonStatus>, out: &mut K) -> DaemonStatus
    ensures printed { PrintsLast (Rose (K.faults out.old) (K.faults out.new))
        (status_of stop.entry.why) (refusal_text stop.entry.name.now (status_of stop.entry.why))
        (K.taken out.old) (K.taken out.new) result }
    ensures memory { stop.entry.why ≡ InputError.OutOfMemory → result ≡ DaemonStatus.OutOfMemory }
    ensures sink { SinkStays K.faults K.same out.old out.new }
{
    match stop.why {
        InputError::NoFile => refuse(stop.name, DaemonStatus::NoFile, out),
        InputError::ReadFault => refuse(stop.name, DaemonStatus::ReadFault, out),
        InputError::Refused(status) => refuse(stop.name, status, out),
        InputError::OutOfMemory => DaemonStatus::OutOfMemory,
    }
}

/// Prints a text, with which a run ends that has this status.
pub fn print<K: Sink>(text: &Text<'_>, status: DaemonStatus, out: &mut K) -> DaemonStatus
    ensures printed { PrintsLast (Rose (K.faults out.old) (K.faults out.new)) status
        (text_of status text.now) (K.taken out.old) (K.taken out.new) result }
    ensures sink { SinkStays K.faults K.same out.old out.new }
{
    print_last(&RunText { text, status }, status, out)
}

/// Prints any text, with which a run ends that has this status.
pub fn print_last<T: PrintedText, K: Sink>(
    text: &T,
    status: DaemonStatus,
    out: &mut K,
) -> DaemonStatus
    ensures printed { (bytes : List ℕ) × T.is_text text.now bytes × PrintsLast
        (Rose (K.faults out.old) (K.faults out.new)) status bytes (K.taken out.old)
        (K.taken out.new) result }
    ensures sink { SinkStays K.faults K.same out.old out.new }
{
    match print_whole(text, out) {
        Ok(()) => status,
        Err(Failed) => DaemonStatus::WriteFault,
    }
}

/// Prints the line of a port that is listened on.
pub fn print_listening<K: Sink>(port: u16, out: &mut K) -> Result<(), Failed>
    ensures printed { MatchResult result
        (λ _. Takes (K.taken out.old) (K.taken out.new) (listening_line port)) (λ _. Rose
        (K.faults out.old) (K.faults out.new) × TakesPrefix (K.taken out.old) (K.taken out.new)
        (listening_line port)) }
    ensures sink { SinkStays K.faults K.same out.old out.new }
{
    let text = Text::Listening(port);
    print_whole(
        &RunText {
            text: &text,
            status: DaemonStatus::Done,
        },
        out,
    )
}

/// A text of a run that ends with this status.
#[derive(Clone, Copy)]
struct RunText<'a> {
    text: &'a Text<'a>,
    status: DaemonStatus,
}

impl PrintedText for RunText<'_> {
    ghost use Rattle.std.specs.Prelude.{◌≡◌};
    ghost use Rattle.ots_calendar_endings.specs.Printed.{text_of};

    ghost is_text = { λ t bytes. bytes ≡ text_of t.status t.text.now };

    fn put<K: Sink>(&self, out: &mut Printer<'_, K>) {
        put_text(self.text, &self.status, out);
    }
}

/// Puts a text.
fn put_text<K: Sink>(text: &Text<'_>, status: &DaemonStatus, out: &mut Printer<'_, K>)
    ensures { Puts K.taken K.faults K.same (text_of status.now text.now) out.old out.new }
{
    match text {
        Text::Refusal(name) => put_refusal(name, status, out),
        Text::Tip(tip) => put_tip(tip.first, tip.count, &tip.root, out),
        Text::Anchored(first, count, height) => put_anchored(*first, *count, *height, out),
        Text::Migrated(count) => put_migrated(*count, out),
        Text::Listening(port) => put_listening(*port, out),
        Text::Served(count) => {
            put_served(*count, out);
            put_refusal("", status, out);
        }
    }
}
