//! What the replies of a sheet make of proofs and of drafts.
//!
//! | call | what it is |
//! |---|---|
//! | [`taken_by`] | what the replies make of one proof |
//! | [`Taken`] | a proof of a draft, a proof that is more complete, or why none is made |
//! | [`one_taken`], [`no_path_more`], [`draft_pairs`] | the laws of what is taken, and of what a draft asks |
//! | [`taken_as_completed`], [`taken_as_stamped`] | the laws that it is what the client makes of the same answers |
#![tactic(auto)]

mod given;
mod laws;
mod making;
mod taking;

pub use laws::{draft_pairs, no_path_more, one_taken, taken_as_completed, taken_as_stamped};
pub use taking::{Taken, taken_by};
