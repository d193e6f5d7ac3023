//! The command of `ots` that asks calendars to complete a proof: `upgrade`.
#![tactic(auto)]

mod laws;
mod lines;
mod upgrading;
mod writing;

pub use laws::some_can_be_upgraded;
pub use upgrading::upgrade;
