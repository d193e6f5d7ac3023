//! A calendar's tree that grows leaf by leaf, and the paths of its leaves.
#![tactic(auto)]

mod growing;

pub use growing::{GrowingTree, RUN, root_of};
