//! The commands of the calendar that keep its journal, with the sink that they print on and at most
//! one file: `tip`, `list`, `anchor` and `migrate`.
#![tactic(auto)]

mod anchor_command;
mod list_command;
mod migrate_command;
mod tip_command;

pub use anchor_command::anchor;
pub use list_command::list;
pub use migrate_command::migrate;
pub use tip_command::tip;
