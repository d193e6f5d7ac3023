//! Drafts: proofs that wait to be sent to calendars by hand.
//!
//! | call | what it is |
//! |---|---|
//! | [`draft_proof`] | the draft of a file, by the way from its digest to the root of a tree |
//! | [`draft_operations`] | the operations of a draft, or that a proof is none |
//! | [`post_address`] | the URL that a `post:` URI names |
//! | [`taken_draft`] | the proof that the trees which calendars answered make of a draft |
//! | [`drafts_wait`], [`one_draft`], [`post_uris`], [`taken_as_stamped`] | the laws of drafts |
#![tactic(auto)]

mod address;
mod drafting;
mod gathering;
mod laws;
mod reading;
mod taking;

pub use address::post_address;
pub use drafting::draft_proof;
pub use laws::{drafts_wait, one_draft, post_uris, taken_as_stamped};
pub use reading::draft_operations;
pub use taking::taken_draft;
