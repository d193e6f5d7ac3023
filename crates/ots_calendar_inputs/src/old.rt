//! The journal of version 1.
ghost use Rattle.ots_journal.specs.declared.limits.TheConstants.{MAX_JOURNAL};
ghost use Rattle.ots_inputs.specs.File.{IsWithin, MeansInput};
ghost use Rattle.ots_inputs.specs.Input.{ReadsNamed};
ghost use Rattle.ots_calendar_inputs.specs.Old.{AreOldEntries, RefusesOld};

use ots_calendar_text::DaemonStatus;
use ots_inputs::{InputError, Stop, TooBig, read_file};
use ots_journal::{Entry, MAX_JOURNAL, OldError, read_version1};
use ots_outside::Shelf;
use std::alloc::Global;

/// The entries of the journal of version 1 that a file is, of at most 1,073,741,824 bytes.
pub fn read_old<'a, S: Shelf>(
    alloc: Global,
    name: &'a str,
    shelf: &mut S,
) -> Result<Vec<Entry>, Stop<'a, DaemonStatus>>
    ensures { ReadsNamed AreOldEntries RefusesOld name.entry.now (S.told shelf.old) (S.told shelf.new)
        (S.faults shelf.old) (S.faults shelf.new) result }
{
    let read = read_file(alloc, name, MAX_JOURNAL, shelf);
    match entries_of(alloc, read) {
        Ok(entries) => Ok(entries),
        Err(why) => Err(Stop { name, why }),
    }
}

/// The entries that these bytes stand for, of which there are at most 1,073,741,824.
fn entries_of(
    alloc: Global,
    read: Result<Vec<u8>, InputError<TooBig>>,
) -> Result<Vec<Entry>, InputError<DaemonStatus>>
    requires { IsWithin MAX_JOURNAL read }
    ensures { MeansInput AreOldEntries RefusesOld MAX_JOURNAL read result }
{
    match read {
        Ok(bytes) => match read_version1(alloc, &bytes) {
            Ok(entries) => Ok(entries),
            Err(OldError::NotAJournal) => Err(InputError::Refused(DaemonStatus::NotAJournal)),
            Err(OldError::Damaged(place)) => Err(InputError::Refused(DaemonStatus::Damaged(place))),
            Err(OldError::OutOfMemory) => Err(InputError::OutOfMemory),
        },
        Err(error) => Err(error.refused_as(DaemonStatus::TooBig)),
    }
}
