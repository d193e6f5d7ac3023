//! One conversation with a calendar: it is asked, and its reply is read.
//!
//! [`converse`] has one, from its beginning to its end.
#![tactic(auto)]

mod conversation;

pub use conversation::converse;
