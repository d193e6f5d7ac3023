//! The whole way of a file as laws: from its digest over the client's nonce and tree, the calendar's round and the
//! anchor to the header of a Bitcoin block, by the trees that the public calls answer. No code calls them.
#![tactic(auto)]

mod laws;

pub use laws::a_cycle_is_confirmed;
