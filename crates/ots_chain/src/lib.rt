//! Whether a table of Bitcoin's headers is one chain with the work that its own headers claim, and has the block
//! hashes that pins name.
#![tactic(auto)]

mod checking;
mod laws;
mod pins;
mod targets;

pub use checking::{ChainCheck, ChainFault, check};
pub use laws::{one_check, one_list_of_pins, whole_is_linked};
pub use pins::{MAX_PINS, Pin, PinsError, failing_pin, read_pins};
pub use targets::target;
