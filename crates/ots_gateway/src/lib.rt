//! An aggregation gateway: it puts the digests of many clients under one root, which alone is sent to
//! calendars; each client is answered the way from its own digest to that root, and below it the trees
//! that calendars answered. It keeps nothing, for the pending attestations in these trees name the
//! calendars.
//!
//! | name | what it is |
//! |---|---|
//! | [`serve_round`] | the links of one round, from their requests to their replies |
//! | [`Round`], [`GateServed`] | how each link was served, and what came of asking each calendar |
//! | [`take_trees`] | which of the good trees are taken, so that each reply fits |
//! | [`good_trees_are_taken`], [`taken_trees_fit`], [`taken_trees_are_sound`] | laws of that |
//! | [`one_round`] | what a round gives is determined |
//! | [`ways_lead_to_the_root`], [`stamped_paths`] | laws of a reply's tree: where its ways lead, and its paths |
//! | [`replies_fit`], [`passing_digests_are_stamped`] | laws of a reply: how long its tree is, and that it comes |
#![tactic(auto)]

mod answer;
mod arrived;
mod hearing;
mod laws;
mod replying;
mod round;
mod sending;
mod served;
mod taking;
mod waiting;

pub use laws::{
    good_trees_are_taken, one_round, passing_digests_are_stamped, replies_fit, stamped_paths,
    taken_trees_are_sound, taken_trees_fit, ways_lead_to_the_root,
};
pub use round::{Round, serve_round};
pub use served::GateServed;
pub use taking::take_trees;
pub use waiting::Waiting;
