//! A file of pins.
ghost use Rattle.std.specs.Prelude.{◌≡◌};
ghost use Rattle.ots_client_inputs.specs.Pins.{ArePinsOf, RefusesPins, refused_pins};
ghost use Rattle.ots_inputs.specs.Input.{ReadsInput, ReadsNamed};

use ots_chain::{Pin, PinsError};
use ots_client_text::Status;
use ots_inputs::{InputError, Stop};
use ots_outside::{Shelf, SlotSource};
use std::alloc::Global;

/// The pins that a file has as its lines.
///
/// It is refused as `BadPins` at its first line that is not of its form.
pub fn read_pins<'a, S: Shelf>(
    alloc: Global,
    name: &'a str,
    shelf: &mut S,
) -> Result<Vec<Pin>, Stop<'a, Status>>
    ensures { ReadsNamed ArePinsOf RefusesPins name.entry.now (S.told shelf.old) (S.told shelf.new)
        (S.faults shelf.old) (S.faults shelf.new) result }
{
    match pins_under(alloc, name, shelf) {
        Ok(pins) => Ok(pins),
        Err(why) => Err(Stop { name, why }),
    }
}

/// The same, without the name.
fn pins_under<S: Shelf>(
    alloc: Global,
    name: &str,
    shelf: &mut S,
) -> Result<Vec<Pin>, InputError<Status>>
    ensures { ReadsInput ArePinsOf RefusesPins name.now (S.told shelf.old) (S.told shelf.new)
        (S.faults shelf.old) (S.faults shelf.new) result }
{
    let slot = shelf.open(name)?;
    let read = ots_chain::read_pins(alloc, &mut SlotSource::new(shelf, slot));
    shelf.close(slot);
    match read {
        Ok(pins) => Ok(pins),
        Err(error) => Err(refused_pins(error)),
    }
}

/// Why a source gives no pins.
fn refused_pins(error: PinsError) -> InputError<Status>
    ensures { result ≡ refused_pins error }
{
    match error {
        PinsError::ReadFault => InputError::ReadFault,
        PinsError::BadPins(number) => InputError::Refused(Status::BadPins(number)),
        PinsError::OutOfMemory => InputError::OutOfMemory,
    }
}
