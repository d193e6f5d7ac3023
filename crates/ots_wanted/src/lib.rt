//! What an archive's proofs want of the calendars of a list: the part of `otsarchive ask` that neither reads nor
//! writes.
//!
//! [`add_wanted`] adds what one proof wants to the requests of many, which are kept each once and in the order of a
//! sheet by `ots_request_set`.
#![tactic(auto)]

mod laws;
mod wanting;

pub use laws::{few_skipped, fewer_fit, one_wanted};
pub use wanting::add_wanted;
