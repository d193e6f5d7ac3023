//! The tickets of a calendar: those that wait for a round, and those whose round is closed.
//!
//! | call | what it does |
//! |---|---|
//! | [`Tickets::put`] | a digest waits, under a number of its own |
//! | [`Tickets::ready`], [`Tickets::settle`] | a round over all that wait, and then their places in it |
//! | [`Tickets::take`] | the tree of a ticket whose round is closed, which is then gone |
//! | [`Tickets::withdraw`] | a ticket is given up |
#![tactic(auto)]

mod rounds;
mod search;
mod settled;
mod slots;
mod tickets;

pub use rounds::Ready;
pub use settled::Settled;
pub use tickets::{MAX_WAITING, PutError, Taken, Tickets};
