//! Conversations with calendars under one path: stamping, and completing a proof by what they answer.
//!
//! | call | what it is |
//! |---|---|
//! | [`Outcome`] | what came of asking one calendar |
//! | [`stamp_with`] | each calendar is sent a digest, and answers a tree below it |
//! | [`upgrade_with`] | each calendar is asked for what the pending paths of a proof ask it for, and completes it |
//! | [`upgrade_within`] | the same, where what it becomes is not longer than a limit |
//! | [`AskedList`] | the pairs that were asked for, each an [`AskedAt`] with what came of it |
//! | [`one_list_of_pairs`] | the law that the pending paths of a proof ask for one list of pairs |
//!
//! `Outcome` is of `ots_asking`, and `stamp_with` of `ots_stamp`: libraries stand on the one that they need.
#![tactic(auto)]

mod asking;
mod laws;
mod upgrading;

pub use asking::{AskedAt, AskedList};
pub use laws::one_list_of_pairs;
pub use ots_asking::Outcome;
pub use ots_stamp::stamp_with;
pub use upgrading::{Upgraded, UpgradedWithin, upgrade_with, upgrade_within};
