//! The lines of what a sheet of replies has of each calendar.
ghost use Rattle.std.specs.Prelude.{◌≡◌, map};
ghost use Rattle.std.specs.List.{flat_map};
ghost use Rattle.ots_archive_counts.specs.Counts.{counted};
ghost use Rattle.ots_archive_take.specs.Counting.{TellsCounts, counts_line};
ghost use Rattle.ots_printer.specs.Printing.{Puts};

use ots_archive_counts::{AddressCounts, counts};
use ots_archive_steps::tell;
use ots_archive_text::{ArchiveStatus, put_replies};
use ots_archive_world::World;
use ots_base::OutOfMemory;
use ots_outputs::PrintedText;
use ots_outside::Sink;
use ots_printer::Printer;
use ots_replies::Replies;
use std::alloc::Global;

/// A line for each calendar.
#[derive(Clone, Copy)]
struct CountLines<'a>(&'a [AddressCounts<'a>]);

impl PrintedText for CountLines<'_> {
    ghost use Rattle.std.specs.Prelude.{◌≡◌, map};
    ghost use Rattle.ots_archive_counts.specs.Counts.{counted};
    ghost use Rattle.ots_archive_take.specs.Counting.{counts_text};

    ghost is_text = { λ t bytes. bytes ≡ counts_text (map counted t.0.now) };

    fn put<K: Sink>(&self, out: &mut Printer<'_, K>) {
        put_counts(self.0, out)
    }
}

/// Tells of each calendar of a sheet what came of its requests.
pub fn tell_counts<W: World>(
    alloc: Global,
    replies: &Replies,
    world: &mut W,
) -> Result<(), ArchiveStatus>
    ensures { TellsCounts replies.now (W.told world.old) (W.told world.new) result }
{
    match counts(alloc, replies) {
        Ok(list) => tell(&CountLines(&list), world),
        Err(OutOfMemory) => Err(ArchiveStatus::OutOfMemory),
    }
}

/// Puts the lines of all calendars.
fn put_counts<K: Sink>(list: &[AddressCounts<'_>], out: &mut Printer<'_, K>)
    ensures { Puts K.taken K.faults K.same (flat_map counts_line (map counted list.now)) out.old out.new }
{
    for one in list {
        put_replies(one.address, one.counts, out);
    }
}
