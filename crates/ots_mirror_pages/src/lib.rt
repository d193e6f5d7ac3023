//! A mirror of a calendar's records: the pages that a calendar hands out, as they are read, and what a mirror takes of
//! them.
//!
//! | name | what it is |
//! |---|---|
//! | [`read_page`] | the number and the entries that a page has, or that bytes are no page |
//! | [`Page`], [`Entries`] | these |
//! | [`offer_of`] | what the body of a reply offers to a mirror that has the records of a store |
//! | [`Offer`] | entries that may follow, none, or nothing that is taken |
#![tactic(auto)]

mod entries;
mod laws;
mod offer;
mod page;

pub use entries::Entries;
pub use laws::{
    calendars_are_honest, honest_pages_are_followed, one_page, pages_are_read, pages_go_on,
};
pub use offer::{Offer, offer_of};
pub use page::{Page, PageError, read_page};
