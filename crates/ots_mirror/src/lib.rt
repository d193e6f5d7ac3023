//! A mirror of a calendar's records: what `otsmirror` does with its words, the disk, the sink and
//! the dialer, proved, so that the program only makes the real objects and calls it.
//!
//! [`run_mirror`] reads the words, then the address, then opens the journal and its store, and then
//! makes rounds. Each asks the calendar for the page at the mirror's own count of records, and adds
//! its entries as one group.
//!
//! | name | what it is |
//! |---|---|
//! | [`run_mirror`], [`MirrorStatus`] | a run, and how it ended |
//! | [`calendars_replies_are_honest`], [`other_replies_are_honest`] | the laws that the premise of a crash is met |
//! | [`read_page`], [`Page`], [`Entries`], [`PageError`] | the page that bytes are |
#![tactic(auto)]

mod laws;
mod page;
mod printing;
mod round;
mod rounds;
mod run;

pub use laws::{calendars_replies_are_honest, other_replies_are_honest};
pub use ots_mirror_pages::{Entries, Page, PageError, read_page};
pub use ots_mirror_words::MirrorStatus;
pub use run::run_mirror;
