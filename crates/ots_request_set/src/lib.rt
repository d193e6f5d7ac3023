//! The distinct requests of many proofs, in the order of a sheet.
//!
//! Requests are added proof by proof to a [`RequestSet`], which keeps each once. It tells at any time
//! whether the sheet of all is within the limits, and gives them out as `ots_sheet` writes them.
#![tactic(auto)]

mod key;
mod laws;
mod set;

pub use laws::one_set;
pub use set::RequestSet;
