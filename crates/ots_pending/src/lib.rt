//! The pure part of upgrading a timestamp proof: what its pending paths ask calendars for, and the
//! proof that their answers complete.
//!
//! | call | what it is |
//! |---|---|
//! | [`pending_pairs`] | each pair of a URI and a message that the proof asks for, once |
//! | [`completed`] | the proof with the trees that were given for its pairs |
//! | [`completed_within`] | the same, where it is not longer than a limit |
//! | [`are_sound_for`] | whether trees may be given for its pairs |
//! | [`has_bitcoin`] | whether some path ends in a Bitcoin attestation |
//! | [`fewer_paths`] | the law that fewer paths are not spelled in more bytes |
#![tactic(auto)]

mod adding;
mod bitcoin;
mod completing;
mod distinct;
mod finding;
mod fitting;
mod forms;
mod growing;
mod kept_pair;
mod laws;
mod lazy_path;
mod least;
mod limits;
mod listing;
mod pairs;
mod path;
mod walk;

pub use bitcoin::has_bitcoin;
pub use completing::{completed, completed_within};
pub use fitting::are_sound_for;
pub use laws::fewer_paths;
pub use pairs::{Pairs, pending_pairs};
