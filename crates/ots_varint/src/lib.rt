//! Varuints, the numbers of OpenTimestamps proofs: base 128, least significant seven bits first, in
//! the shortest form, below 2^64. Read, written, and taken byte by byte.
//!
//! The format is that of the reference library python-opentimestamps (`opentimestamps/core/serialize.py`,
//! `write_varuint`), here with one spelling a number.
#![tactic(auto)]

mod laws;
mod reading;
mod state;
mod varbytes_state;
mod writing;

pub use laws::{answers_stay, numbers_read_as_spelled, one_spelling};
pub use reading::{VaruintRead, read_varuint};
pub use state::{Step, VaruintState};
pub use varbytes_state::{LengthStep, VarbytesState};
pub use writing::{MAX_SPELLED_NUMBER, put_number, put_varbytes, put_varuint, varuint_length};
