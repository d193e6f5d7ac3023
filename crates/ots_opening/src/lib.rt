//! Opening the store on a disk, as whoever keeps a calendar's records does: the file is taken as a journal of the
//! greatest length, and the journal's entries as records.
//!
//! | name | what it is |
//! |---|---|
//! | [`open_store`] | the store on a disk, or the disk and why none was opened |
//! | [`Unopened`], [`OpenError`] | these |
#![tactic(auto)]

mod errors;
mod opening;

pub use errors::{OpenError, Unopened};
pub use opening::open_store;
