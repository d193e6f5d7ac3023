//! The calendar's own address.
ghost use Rattle.std.specs.Prelude.{◌≡◌, MatchResult};
ghost use Rattle.ots_calendar_inputs.specs.Address.{IsOneAddress, MayRefuseAddress, refusal};
ghost use Rattle.ots_inputs.specs.declared.error.InputError.TheVariants.{OutOfMemory};

use ots_address::{Address, AddressError, read_address};
use ots_attest::{Uri, UriError};
use ots_calendar_text::DaemonStatus;
use ots_inputs::InputError;
use std::alloc::Global;

/// The URI that a calendar's pending attestations name: the text of the address that the word is.
/// `Refused` comes as `BadAddress` does in [`read_address`].
pub fn read_uri(alloc: Global, word: &str) -> Result<Uri, InputError<DaemonStatus>>
    ensures { MatchResult result (IsOneAddress word.now) (MayRefuseAddress word.now) }
{
    match read_address(alloc, word) {
        Ok(address) => uri_of(alloc, &address),
        Err(error) => Err(refusal(error)),
    }
}

/// The URI of an address.
fn uri_of(alloc: Global, address: &Address) -> Result<Uri, InputError<DaemonStatus>>
    ensures { MatchResult result (λ uri. uri ≡ address.now.text) (λ e. e ≡ OutOfMemory) }
{
    match Uri::new(alloc, address.text()) {
        Ok(uri) => Ok(uri),
        Err(UriError::OutOfMemory) => Err(InputError::OutOfMemory),
        // An address has at most 266 bytes, and none that a URI may not have.
        Err(UriError::TooLong(_)) => unreachable!(),
        Err(UriError::BadChar(_)) => unreachable!(),
    }
}

/// The refusal of a word that is not one address, or want of memory.
fn refusal(error: AddressError) -> InputError<DaemonStatus>
    ensures { result ≡ refusal error }
{
    match error {
        AddressError::BadAddress { place, https } => {
            InputError::Refused(DaemonStatus::BadAddress {
                place: place as u64,
                https,
            })
        }
        AddressError::OutOfMemory => InputError::OutOfMemory,
    }
}
