//! The command `ask`.
ghost use Rattle.std.specs.Prelude.{◌≤◌, length, map};
ghost use Rattle.ots_archive_ask.specs.Asks.{Asks, AsksProofs, AsksUrls};
ghost use Rattle.ots_archive_steps.specs.Ends.{Ends};
ghost use Rattle.ots_archive_steps.specs.Entries.{entries_of};
ghost use Rattle.ots_archive_words.specs.Names.{AreFew};
ghost use Rattle.ots_archive_words.specs.Words.{read_asking};
ghost use Rattle.ots_calendar_url.specs.CalendarUrl.{text_of};
ghost use Rattle.ots_calendar_url.specs.UrlList.{AreUrls};
ghost use Rattle.ots_sums.specs.declared.reading.TheConstants.{MAX_LINES};

use crate::gathering::gather;
use crate::sheet::write_sheet;
use ots_archive_steps::{Entries, read_entries, read_list};
use ots_archive_text::ArchiveStatus;
use ots_archive_words::Asking;
use ots_archive_world::World;
use ots_calendar_url::CalendarUrl;
use std::alloc::Global;

/// Makes the sheet of all that these proofs want of the calendars of a list, and tells how many requests each calendar
/// has, and how many pairs of the proofs have another address.
///
/// A proof that can't be read has its line printed, and the run goes on; it ends with the status of the first of them,
/// else with `Exists` where the name of the sheet is there, for that file stays, else with `Done`. Where the list or
/// the file of sums can't be read, or all is more than a sheet holds (`TooManyRequests`), the run ends with the line
/// that tells so, and nothing is made. So does it where the sheet can't be written (`WriteFault`), which then holds a
/// prefix of it or isn't there. `OutOfMemory`, and `WriteFault` where the sink fails, may come at any time.
///
/// One proof is held at a time, beside the requests.
pub fn ask<W: World>(alloc: Global, asked: Asking<'_>, world: &mut W) -> ArchiveStatus
    ensures { Asks (read_asking asked.entry) (W.told world.old) (W.told world.new) result }
{
    match read_list(alloc, asked.calendars, world) {
        Ok(urls) => ask_urls(alloc, urls, asked, world),
        Err(status) => status,
    }
}

/// The same for the calendars of a list.
fn ask_urls<W: World>(
    alloc: Global,
    urls: Vec<CalendarUrl>,
    asked: Asking<'_>,
    world: &mut W,
) -> ArchiveStatus
    requires urls { AreUrls (map text_of urls.items) }
    requires few { AreFew asked.names }
    ensures { Ends (AsksUrls (read_asking asked.entry) (map text_of urls.items)) (W.told world.old)
        (W.told world.new) result }
{
    match read_entries(alloc, asked.names, world) {
        Ok(entries) => ask_proofs(alloc, urls, asked.all, asked.sheet, &entries, world),
        Err(status) => status,
    }
}

/// The same for these proofs.
fn ask_proofs<W: World>(
    alloc: Global,
    urls: Vec<CalendarUrl>,
    all: bool,
    sheet: &str,
    entries: &Entries<'_>,
    world: &mut W,
) -> ArchiveStatus
    requires urls { AreUrls (map text_of urls.items) }
    requires few { length (entries_of entries.now) ≤ MAX_LINES }
    ensures { Ends (AsksProofs all sheet.now (map text_of urls.items) (entries_of entries.now)) (W.told world.old)
        (W.told world.new) result }
{
    match gather(alloc, urls, all, entries, world) {
        Ok(gathered) => write_sheet(alloc, sheet, &gathered, world),
        Err(status) => status,
    }
}
