//! Files that are stamped together: the one digest that calendars are sent, and the proof of each file.
//!
//! | call | what it is |
//! |---|---|
//! | [`stamp_with`] | each calendar is sent a digest, and answers a tree below it |
//! | [`leaf_of`] | the leaf of a digest and its nonce |
//! | [`Ways`] | leaves under one root, which calendars are sent, and the way from each to it |
//! | [`Batch`] | files that are stamped together: their root, and the proof of each |
//! | [`gather_good`] | the trees of all calendars in one |
#![tactic(auto)]

mod batch;
mod gathering;
mod stamping;
mod target;
mod ways;

pub use batch::Batch;
pub use gathering::gather_good;
pub use stamping::stamp_with;
pub use target::Target;
pub use ways::{Ways, leaf_of};
