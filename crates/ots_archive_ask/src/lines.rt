//! What is told of a sheet.
ghost use Rattle.std.specs.Prelude.{map};
ghost use Rattle.std.specs.List.{flat_map};
ghost use Rattle.ots_archive_ask.specs.Sheet.{asks_line};
ghost use Rattle.ots_calendar_url.specs.CalendarUrl.{text_of};
ghost use Rattle.ots_printer.specs.Printing.{Puts};

use ots_archive_text::{put_asks, put_skipped};
use ots_outputs::PrintedText;
use ots_outside::Sink;
use ots_printer::Printer;
use ots_request_set::RequestSet;

/// How many requests each calendar has, and how many pairs have another address.
#[derive(Clone, Copy)]
pub struct AskedText<'a> {
    /// The requests.
    pub set: &'a RequestSet,
    /// How many pairs of the proofs have another address.
    pub skipped: u64,
}

impl PrintedText for AskedText<'_> {
    ghost use Rattle.std.specs.Prelude.{◌≡◌, map};
    ghost use Rattle.ots_archive_ask.specs.Sheet.{asked_text};
    ghost use Rattle.ots_calendar_url.specs.CalendarUrl.{text_of};

    ghost is_text = { λ t bytes. bytes ≡ asked_text (map text_of t.set.now.urls) t.set.now.requests t.skipped };

    fn put<K: Sink>(&self, out: &mut Printer<'_, K>) {
        put_counts(self.set, out);
        put_skipped(self.skipped, out);
    }
}

/// Puts a line for each calendar.
fn put_counts<K: Sink>(set: &RequestSet, out: &mut Printer<'_, K>)
    ensures { Puts K.taken K.faults K.same (flat_map (asks_line set.now.requests) (map text_of set.now.urls)) out.old
        out.new }
{
    for (place, url) in set.urls().iter().enumerate() {
        put_asks(url.text(), set.count(place) as u64, out);
    }
}
