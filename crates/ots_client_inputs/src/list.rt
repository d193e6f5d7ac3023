//! A list of calendars.
ghost use Rattle.std.specs.Prelude.{◌≡◌, MatchResult};
ghost use Rattle.ots_address.specs.AddressList.{IsListOf};
ghost use Rattle.ots_client_inputs.specs.List.{StopsAtList, refused_list};

use ots_address::{Address, AddressError, read_addresses};
use ots_client_text::Status;
use ots_inputs::{InputError, Stop};
use std::alloc::Global;

/// The calendars of a list, which is no file: no name is told where it is refused.
///
/// It is refused as `BadAddress` at its first piece that is no address, or one too many.
pub fn read_list<'a>(alloc: Global, list: &str) -> Result<Vec<Address>, Stop<'a, Status>>
    ensures { MatchResult result (λ calendars. IsListOf list.now calendars.items) (StopsAtList list.now) }
{
    match read_addresses(alloc, list) {
        Ok(calendars) => Ok(calendars),
        Err(error) => Err(Stop {
            name: "",
            why: refused_list(error),
        }),
    }
}

/// Why a list gives no calendars.
fn refused_list(error: AddressError) -> InputError<Status>
    ensures { result ≡ refused_list error }
{
    match error {
        AddressError::BadAddress { place, https } => {
            InputError::Refused(Status::BadAddress { place, https })
        }
        AddressError::OutOfMemory => InputError::OutOfMemory,
    }
}
