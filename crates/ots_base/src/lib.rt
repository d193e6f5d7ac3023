//! What every layer shares: want of memory, the limits of the format, bytes that only contracts see,
//! and the words of contracts that no layer owns (`specs/`): a count that rose, the cause of a fault,
//! contents that may be told, an answer unless memory ran out, and a table whose first line that fits
//! decides.
#![tactic(auto)]

mod bytes;
mod ghost_bytes;
mod limits;
mod out_of_memory;

pub use bytes::are_bytes;
pub use ghost_bytes::GhostBytes;
pub use limits::{
    MAX_ARGUMENT, MAX_HEADER_FILE, MAX_HEXLIFIED, MAX_MESSAGE, MAX_OPERATIONS, MAX_PAYLOAD,
    MAX_PROOF_FILE, MAX_REPLY_BODY, MAX_TARGET_FILE, MAX_URI,
};
pub use out_of_memory::OutOfMemory;
