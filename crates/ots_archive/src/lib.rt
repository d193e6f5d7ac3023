//! The program `otsarchive` over a world: what its words ask for.
//!
//! [`run_archive`] does all that the program does. What it asks for is a command of `ots_archive_draft`, `ots_archive_ask`
//! or `ots_archive_take`. [`files_stay`] is the law that no file which is there is changed.
#![tactic(auto)]

mod laws;
mod run;

pub use laws::files_stay;
pub use ots_archive_text::ArchiveStatus;
pub use run::run_archive;
