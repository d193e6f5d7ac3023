//! The key file.
ghost use Rattle.ots_calendar_inputs.specs.Key.{GivesKey, RefusesKey};
ghost use Rattle.ots_inputs.specs.File.{MeansInput};
ghost use Rattle.ots_inputs.specs.Input.{ReadsNamed};
ghost use Rattle.ots_round.specs.declared.hmac.TheConstants.{MAX_KEY};

use ots_calendar_text::DaemonStatus;
use ots_inputs::{InputError, Stop, TooBig, read_file};
use ots_outside::Shelf;
use ots_round::{BadKey, Key, MAX_KEY};
use std::alloc::Global;

/// The key that a file is: 1 to 64 bytes. At most 65 bytes are read, so that each longer file is
/// refused as one of 65.
pub fn read_key<'a, S: Shelf>(
    alloc: Global,
    name: &'a str,
    shelf: &mut S,
) -> Result<Key, Stop<'a, DaemonStatus>>
    ensures { ReadsNamed GivesKey RefusesKey name.entry.now (S.told shelf.old) (S.told shelf.new) (S.faults shelf.old)
        (S.faults shelf.new) result }
{
    let read = read_file(alloc, name, MAX_KEY as u64, shelf);
    match key_of(read) {
        Ok(key) => Ok(key),
        Err(why) => Err(Stop { name, why }),
    }
}

/// The key that these bytes are.
fn key_of(read: Result<Vec<u8>, InputError<TooBig>>) -> Result<Key, InputError<DaemonStatus>>
    ensures { MeansInput GivesKey RefusesKey MAX_KEY read result }
{
    match read {
        Ok(bytes) => match Key::new(&bytes) {
            Ok(key) => Ok(key),
            Err(BadKey(length)) => Err(InputError::Refused(DaemonStatus::BadKey(length.min(
                MAX_KEY as u64 + 1,
            )))),
        },
        Err(error) => Err(error.refused_as(DaemonStatus::BadKey(MAX_KEY as u64 + 1))),
    }
}
