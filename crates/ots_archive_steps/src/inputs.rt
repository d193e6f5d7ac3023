//! Files and lists that are read.
ghost use Rattle.std.specs.Prelude.{◌≡◌};
ghost use Rattle.ots_archive_steps.specs.Inputs.{Looks, Needs, ReadsList, status_of};

use crate::printing::refuse;
use ots_archive_text::ArchiveStatus;
use ots_archive_world::{Reader, World};
use ots_calendar_url::{CalendarUrl, UrlError, read_urls};
use ots_inputs::InputError;
use std::alloc::Global;

/// What a reader makes of the bytes of a file, or the status that a refusal has. No line is printed.
pub fn look<R: Reader<Refusal = ArchiveStatus>, W: World>(
    alloc: Global,
    name: &str,
    reader: &R,
    world: &mut W,
) -> Result<R::Item, ArchiveStatus>
    ensures { Looks (R.gives reader.now) (R.refuses reader.now) name.now (W.told world.old) (W.told world.new) result }
{
    match world.read(alloc, name, reader) {
        Ok(item) => Ok(item),
        Err(error) => Err(status_of(error)),
    }
}

/// The same of a file without which a run can't go on: it ends with the line of the refusal.
pub fn need<R: Reader<Refusal = ArchiveStatus>, W: World>(
    alloc: Global,
    name: &str,
    reader: &R,
    world: &mut W,
) -> Result<R::Item, ArchiveStatus>
    ensures { Needs (R.gives reader.now) (R.refuses reader.now) name.now (W.told world.old) (W.told world.new) result }
{
    match look(alloc, name, reader, world) {
        Ok(item) => Ok(item),
        Err(status) => Err(refuse(name.as_bytes(), status, world)),
    }
}

/// The status of a name that gives nothing.
fn status_of(error: InputError<ArchiveStatus>) -> ArchiveStatus
    ensures { result ≡ status_of error }
{
    match error {
        InputError::NoFile => ArchiveStatus::NoFile,
        InputError::ReadFault => ArchiveStatus::ReadFault,
        InputError::Refused(status) => status,
        InputError::OutOfMemory => ArchiveStatus::OutOfMemory,
    }
}

/// The calendars of a list. Where it has a piece that is none, the run ends with the line that tells its place.
pub fn read_list<W: World>(
    alloc: Global,
    list: &str,
    world: &mut W,
) -> Result<Vec<CalendarUrl>, ArchiveStatus>
    ensures { ReadsList list.now (W.told world.old) (W.told world.new) result }
{
    match read_urls(alloc, list) {
        Ok(urls) => Ok(urls),
        Err(UrlError::BadAddress { place }) => {
            Err(refuse(b"", ArchiveStatus::BadAddress { place }, world))
        }
        Err(UrlError::OutOfMemory) => Err(ArchiveStatus::OutOfMemory),
    }
}
