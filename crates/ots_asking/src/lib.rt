//! A conversation with a calendar, and what comes of it.
//!
//! | call | what it is |
//! |---|---|
//! | [`converse`] | a calendar is asked in a conversation of its own |
//! | [`Outcome`] | what came of asking one |
//! | [`outcome_of_body`] | the outcome of a good reply with a body that is at hand |
//! | [`one_outcome`] | the law that a reply has one outcome |
//! | [`one_outcome_of_body`] | the law that a body has one outcome |
#![tactic(auto)]

mod conversation;
mod laws;
mod outcome;

pub use conversation::converse;
pub use laws::{one_outcome, one_outcome_of_body};
pub use outcome::{Outcome, outcome_of_body};
