//! The sheet is made.
ghost use Rattle.std.specs.Prelude.{ℕ, List, true, false, map};
ghost use Rattle.ots_archive_ask.specs.Sheet.{TellsSheet, WritesSheet};
ghost use Rattle.ots_archive_ask.specs.Total.{Total};
ghost use Rattle.ots_archive_ask.specs.inner.Held.{Holds, TellsGathered};
ghost use Rattle.ots_archive_steps.specs.Ends.{Ends, IfRoom};
ghost use Rattle.ots_archive_steps.specs.Making.{MakesNew};
ghost use Rattle.ots_archive_world.specs.Steps.{Then};
ghost use Rattle.ots_calendar_url.specs.CalendarUrl.{Url, text_of};
ghost use Rattle.ots_sheet.specs.Request.{request_parts};
ghost use Rattle.ots_sheet.specs.Sheet.{request_sheet};

use crate::gathering::Gathered;
use crate::lines::AskedText;
use ots_archive_steps::{make, refuse, tell, tell_refusal, worse};
use ots_archive_text::ArchiveStatus;
use ots_archive_world::World;
use ots_base::OutOfMemory;
use ots_outputs::Contents;
use ots_outside::{Failed, Sink};
use ots_sheet::{Request, write_requests};
use std::alloc::Global;

/// The file of a sheet of requests.
#[derive(Clone, Copy)]
struct SheetFile<'a>(&'a [Request<'a>]);

impl Contents for SheetFile<'_> {
    ghost use Rattle.std.specs.Prelude.{map};
    ghost use Rattle.ots_sheet.specs.Request.{request_parts};
    ghost use Rattle.ots_sheet.specs.Sheet.{request_sheet};

    ghost bytes = { λ f. request_sheet (map request_parts f.0.now) };

    fn write_to<K: Sink>(&self, sink: &mut K) -> Result<(), Failed> {
        write_requests(self.0, sink)
    }
}

/// Makes the sheet of what was gathered, and tells of it: the run ends. Where all is more than a sheet holds, it ends
/// with the line that tells so, and nothing is made.
pub fn write_sheet<W: World>(
    alloc: Global,
    name: &str,
    gathered: &Gathered,
    world: &mut W,
) -> ArchiveStatus
    ensures { (urls : List Url) (total : Total) → Holds urls total gathered.now → Ends (IfRoom (WritesSheet name.now
        (map text_of urls) total)) (W.told world.old) (W.told world.new) result }
{
    if !gathered.set.is_within() {
        return refuse(b"", ArchiveStatus::TooManyRequests, world);
    }
    match gathered.set.requests(alloc) {
        Ok(requests) => make_sheet(name, &requests, gathered, world),
        Err(OutOfMemory) => ArchiveStatus::OutOfMemory,
    }
}

/// Makes the sheet of these requests.
fn make_sheet<W: World>(
    name: &str,
    requests: &[Request<'_>],
    gathered: &Gathered,
    world: &mut W,
) -> ArchiveStatus
    ensures { Ends (Then (MakesNew name.now (request_sheet (map request_parts requests.now))) (TellsGathered name.now
        gathered.now)) (W.told world.old) (W.told world.new) result }
{
    match make(name, &SheetFile(requests), world) {
        Ok(true) => tell_made(gathered, world),
        Ok(false) => tell_exists(name, gathered.status, world),
        Err(status) => status,
    }
}

/// Tells what the sheet that was made holds.
fn tell_made<W: World>(gathered: &Gathered, world: &mut W) -> ArchiveStatus
    ensures { (name : List ℕ) → Ends (TellsGathered name gathered.now true) (W.told world.old) (W.told world.new)
        result }
{
    let text = AskedText {
        set: &gathered.set,
        skipped: gathered.skipped,
    };
    match tell(&text, world) {
        Ok(()) => gathered.status,
        Err(status) => status,
    }
}

/// Tells that the name of the sheet was there.
fn tell_exists<W: World>(name: &str, status: ArchiveStatus, world: &mut W) -> ArchiveStatus
    ensures { (text : List ℕ) → Ends (TellsSheet name.now text status false) (W.told world.old) (W.told world.new)
        result }
{
    match tell_refusal(name.as_bytes(), &ArchiveStatus::Exists, world) {
        Ok(()) => worse(status, ArchiveStatus::Exists),
        Err(status) => status,
    }
}
