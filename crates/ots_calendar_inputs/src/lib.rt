//! What the commands of `otsd` read before the journal: the calendar's address, and files.
#![tactic(auto)]

mod address;
mod block;
mod digests;
mod key;
mod laws;
mod lines;
mod old;

pub use address::read_uri;
pub use block::read_block;
pub use digests::read_digests;
pub use key::read_key;
pub use laws::{one_address, one_block, one_key, one_list_of_digests, one_old_journal};
pub use lines::{MAX_LINE, MAX_LINES};
pub use old::read_old;
