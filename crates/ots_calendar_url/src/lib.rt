//! The URLs of calendars that an archive asks, over http or https, and lists of them.
//!
//! [`scheme_of`] decides whether bytes are such a URL, and [`read_urls`] reads a list with commas
//! between, as a program is given it. Where a program asks calendars itself, it takes the addresses
//! of `ots_address`, which are those over http alone.
#![tactic(auto)]

mod authority;
mod laws;
mod list;
mod url;

pub use laws::{one_list_of_urls, one_scheme};
pub use list::{UrlError, read_urls};
pub use url::{CalendarUrl, Scheme, scheme_of};
