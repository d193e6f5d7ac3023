// Lists of calendar addresses.
use ots_address::{Address, AddressError, read_addresses};
use ots_row_words::{Said, malformed};
use std::alloc::{AllocError, Global};
use std::{io, str};

/// Says the addresses of a list, or which of them is bad.
pub fn say_addresses(alloc: Global, list: &[u8], said: &mut Said) -> io::Result<()> {
    match read_addresses(alloc, text_of(list)?) {
        Ok(addresses) => say_all(&addresses, said),
        Err(AddressError::BadAddress { place, https }) => {
            said.word("bad at");
            said.count(place);
            said.word(if https { "true" } else { "false" });
        }
        Err(AddressError::OutOfMemory) => return Err(io::Error::from(AllocError)),
    }
    Ok(())
}

/// Says each address, with its host and port.
fn say_all(addresses: &[Address], said: &mut Said) {
    for address in addresses {
        said.word(address.text());
        said.word("is");
        said.word(address.host());
        said.number(u64::from(address.port()));
        said.push(";");
    }
}

/// The text that bytes are.
fn text_of(bytes: &[u8]) -> io::Result<&str> {
    str::from_utf8(bytes).map_err(|_| malformed())
}

/// The addresses of a list that is a word of a script.
pub fn addresses_of(alloc: Global, list: &str) -> io::Result<Vec<Address>> {
    read_addresses(alloc, list).map_err(|_| malformed())
}
