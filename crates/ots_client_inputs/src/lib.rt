//! What the commands of `ots` read: proofs, headers, pins, and files that are hashed; and lists of calendars,
//! which are no files.
#![tactic(auto)]

mod check;
mod headers;
mod list;
mod pins;
mod proof;
mod target;

pub use check::check_proof;
pub use headers::read_headers;
pub use list::read_list;
pub use pins::read_pins;
pub use proof::read_proof;
pub use target::hash_target;
