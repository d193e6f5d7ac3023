//! How many requests of a sheet of replies came to what, calendar by calendar.
//!
//! | call | what it is |
//! |---|---|
//! | [`counts`] | the counts of each calendar, in the order of their addresses |
//! | [`AddressCounts`] | those of one calendar |
//! | [`Came`] | what may come of a request |
//! | [`one_list_of_counts`] | the law that a sheet has one list of counts |
#![tactic(auto)]

mod came;
mod counting;
mod laws;

pub use came::Came;
pub use counting::{AddressCounts, counts};
pub use laws::one_list_of_counts;
