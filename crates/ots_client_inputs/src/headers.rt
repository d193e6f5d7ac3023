//! A file of block headers.
ghost use Rattle.std.specs.Prelude.{◌≡◌, ◌≤◌, ◌-◌, ◌^◌};
ghost use Rattle.ots_headers.specs.TableRead.{IsTableOf};
ghost use Rattle.ots_client_inputs.specs.Headers.{RefusesTable, refused_headers};
ghost use Rattle.ots_inputs.specs.Input.{ReadsInput, ReadsNamed};

use ots_client_text::Status;
use ots_client_words::HeaderFile;
use ots_headers::{Headers, HeadersError};
use ots_inputs::{InputError, Stop};
use ots_outside::{Shelf, SlotSource};
use std::alloc::Global;

/// The header table that a file is.
///
/// It is refused as `BadHeaders` where its length is 0, no multiple of 80, or more than 83,886,080 bytes.
pub fn read_headers<'a, S: Shelf>(
    alloc: Global,
    file: HeaderFile<'a>,
    shelf: &mut S,
) -> Result<Headers, Stop<'a, Status>>
    ensures { ReadsNamed (IsTableOf file.entry.first) RefusesTable file.entry.name.now
        (S.told shelf.old) (S.told shelf.new) (S.faults shelf.old) (S.faults shelf.new) result }
{
    match headers_under(alloc, file.name, file.first, shelf) {
        Ok(headers) => Ok(headers),
        Err(why) => Err(Stop {
            name: file.name,
            why,
        }),
    }
}

/// The same, without the name.
fn headers_under<S: Shelf>(
    alloc: Global,
    name: &str,
    first: u64,
    shelf: &mut S,
) -> Result<Headers, InputError<Status>>
    requires { first ≤ 2 ^ 63 - 1 }
    ensures { ReadsInput (IsTableOf first) RefusesTable name.now (S.told shelf.old) (S.told shelf.new)
        (S.faults shelf.old) (S.faults shelf.new) result }
{
    let slot = shelf.open(name)?;
    let read = Headers::read(alloc, first, &mut SlotSource::new(shelf, slot));
    shelf.close(slot);
    match read {
        Ok(headers) => Ok(headers),
        Err(error) => Err(refused_headers(error)),
    }
}

/// Why a source gives no headers.
fn refused_headers(error: HeadersError) -> InputError<Status>
    ensures { result ≡ refused_headers error }
{
    match error {
        HeadersError::ReadFault => InputError::ReadFault,
        HeadersError::BadHeaders(length) => InputError::Refused(Status::BadHeaders(length)),
        HeadersError::OutOfMemory => InputError::OutOfMemory,
    }
}
