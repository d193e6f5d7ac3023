//! Lists of calendar addresses.
ghost use Rattle.std.specs.Prelude.{◌≡◌, ◌≢◌, ◌<◌, ◌≤◌, ◌+◌, ℕ, List, true, false, length, map, take, drop, codes, All};
ghost use Rattle.std.specs.Prelude.{IfOk, IfErr, IfSome, IfNone, IsTrue};
ghost use Rattle.std.specs.Option.{option_copied};
ghost use Rattle.ots_address.specs.declared.list.AddressError.TheVariants.{OutOfMemory};
ghost use Rattle.ots_address.specs.Address.{IsNamed, KeepsAddress, text_of};
ghost use Rattle.ots_address.specs.AddressList.{IsNext, IsListOf, IfBadAddress, IsRefusal, CutsPiece};

use crate::address::Address;
use crate::limits::MAX_CALENDARS;
use crate::parse::{Parts, read_parts};
use std::alloc::{AllocError, AllocFailed, Global};

/// Why a text is no list of calendar addresses.
#[derive(Clone, Copy, Debug, PartialEq, Eq)]
pub enum AddressError {
    /// The first address that is not of the form, repeats an earlier one or is the 17th.
    BadAddress {
        /// The place of its first byte, counted from 0.
        place: usize,
        /// Whether it begins with `https://`.
        https: bool,
    },
    /// Memory ran out.
    OutOfMemory,
}

impl From<AllocError> for AddressError {
    ghost from_gives = { λ _ e. e ≡ OutOfMemory };

    fn from(_: AllocError) -> Self {
        AddressError::OutOfMemory
    }
}

impl From<AllocFailed<Address>> for AddressError {
    ghost from_gives = { λ _ e. e ≡ OutOfMemory };

    fn from(_: AllocFailed<Address>) -> Self {
        AddressError::OutOfMemory
    }
}

/// The calendar addresses of a list with commas between: 1 to `MAX_CALENDARS`.
///
/// `BadAddress` comes at the first address that is not `http://`, a host of 1 to `MAX_HOST` letters,
/// digits, `-` and `.`, and maybe `:` and a port of 1 to 65,535 without leading zeros; or that has
/// the text of an earlier one; or is the 17th. So the empty list is bad at 0.
pub fn read_addresses(alloc: Global, list: &str) -> Result<Vec<Address>, AddressError>
    ensures ok { IfOk result (λ addresses. IsListOf list.now addresses.items) }
    ensures bad { IfErr result (IfBadAddress list.now) }
{
    let mut addresses = Vec::new(alloc);
    let mut place = 0;
    let mut rest = Some(list);
    while let Some(text) = rest {
        let (piece, after) = cut_piece(text);
        let address = read_next(alloc, &addresses, piece, place)?;
        addresses.push(address)?;
        place += piece.len() + 1;
        rest = after;
    }
    Ok(addresses)
}

/// The first piece of a text, and what follows the comma after it.
fn cut_piece(text: &str) -> (&str, Option<&str>)
    ensures { CutsPiece text.now result.0.now (option_copied result.1) }
{
    match text.split_once(',') {
        Some((piece, rest)) => (piece, Some(rest)),
        None => (text, None),
    }
}

/// The address of a piece that stands at this place after these addresses.
fn read_next(
    alloc: Global,
    before: &[Address],
    piece: &str,
    place: usize,
) -> Result<Address, AddressError>
    ensures ok { IfOk result (λ address. (address.text ≡ piece.now) × IsNext (map text_of before.now) piece.now) }
    ensures named { IfOk result IsNamed }
    ensures bad { IfErr result (IsRefusal (map text_of before.now) piece.now place) }
{
    match next_parts(before, piece) {
        Some(parts) => Ok(Address {
            text: String::from_str(alloc, piece)?,
            host: parts.host,
            port: parts.port,
        }),
        None => Err(AddressError::BadAddress {
            place,
            https: piece.starts_with("https://"),
        }),
    }
}

/// The parts of a piece, where it is the next address after these.
fn next_parts(before: &[Address], piece: &str) -> Option<Parts>
    ensures some { IfSome result (λ parts. KeepsAddress piece.now parts.host parts.port) }
    ensures next { IfSome result (λ parts. IsNext (map text_of before.now) piece.now) }
    ensures none { IfNone result (¬ (IsNext (map text_of before.now) piece.now)) }
{
    if before.len() >= MAX_CALENDARS || has_text(before, piece) {
        return None;
    }
    read_parts(piece.as_bytes())
}

/// Whether one of the addresses has this text.
fn has_text(addresses: &[Address], text: &str) -> bool
    ensures no { result ≡ false → All (λ (earlier : List ℕ). earlier ≢ text.now) (map text_of addresses.now) }
    ensures yes { result ≡ true → ¬ (All (λ (earlier : List ℕ). earlier ≢ text.now) (map text_of addresses.now)) }
{
    for address in addresses {
        if address.text() == text {
            return true;
        }
    }
    false
}
