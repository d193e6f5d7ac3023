//! Addresses of calendars, and lists of them.
//!
//! [`read_addresses`] reads a list with commas between, as a program is given it, and
//! [`read_address`] a word that is one address. An [`Address`] has a text, a host and a port.
#![tactic(auto)]

mod address;
mod laws;
mod limits;
mod list;
mod one;
mod parse;

pub use address::Address;
pub use laws::{one_address_answer, one_host_and_port, one_list_answer};
pub use limits::{DEFAULT_PORT, MAX_CALENDARS, MAX_HOST};
pub use list::{AddressError, read_addresses};
pub use one::read_address;
