//! A calendar's round: tickets that wait together, the commitment over them, and the way from each
//! ticket's leaf to it.
//!
//! | name | what it is |
//! |---|---|
//! | [`hmac_sha256`], [`Key`] | the keyed hash under which a calendar signs, and its key |
//! | [`Ticket`], [`Receipt`] | a leaf that waits, and where its commitment is stored |
//! | [`leaf_hashes`] | the leaves of a round's tree |
//! | [`commitment`] | what is stored for a round |
//! | [`way_to_commitment`] | the operations from one leaf to it |
#![tactic(auto)]

mod hmac;
mod key;
mod laws;
mod round;
mod ticket;
mod way;

pub use hmac::{MAX_KEY, hmac_sha256};
pub use key::{BadKey, Key};
pub use laws::{commitment_parts, filled_key, ways_lead};
pub use round::{COMMITMENT, commitment, leaf_hashes};
pub use ticket::{Receipt, Ticket};
pub use way::way_to_commitment;
