//! A word that is one calendar address.
ghost use Rattle.std.specs.Prelude.{◌≤◌, length, IfOk, IfErr};
ghost use Rattle.ots_address.specs.OneAddress.{IsOneAddress, IfNotOneAddress, IsOnly};

use crate::address::Address;
use crate::list::{AddressError, read_addresses};
use std::alloc::Global;

/// The calendar address that a word is. `BadAddress` comes as in [`read_addresses`]; and where the
/// word is a list of several addresses, at the second.
pub fn read_address(alloc: Global, word: &str) -> Result<Address, AddressError>
    ensures ok { IfOk result (IsOneAddress word.now) }
    ensures bad { IfErr result (IfNotOneAddress word.now) }
{
    let addresses = read_addresses(alloc, word)?;
    only(addresses)
}

/// A list's only address. Where there are several, the second is refused, which begins with
/// `http://`.
fn only(addresses: Vec<Address>) -> Result<Address, AddressError>
    requires { 1 ≤ length addresses.items }
    ensures { IsOnly addresses.items result }
{
    let mut addresses = addresses;
    if addresses.len() > 1 {
        return Err(AddressError::BadAddress {
            place: addresses[0].text().len() + 1,
            https: false,
        });
    }
    Ok(addresses.pop().unwrap())
}
