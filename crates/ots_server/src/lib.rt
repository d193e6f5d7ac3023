//! The calendar's server, under one path.
//!
//! | crate | what it has |
//! |---|---|
//! | `ots_connection` | one connection, from its request to its reply |
//! | `ots_workers` | several workers, which accept connections and serve them |
//! | `ots_calendar_endings` | what its commands share: opening, printing, and how a run ends |
//! | `ots_calendar_maintenance` | the commands `tip`, `list`, `anchor` and `migrate` |
//! | `ots_calendar_batch`, `ots_calendar_serve` | the commands `batch` and `serve` |
//! | `ots_calendar_commands` | the commands of `otsd` by its words |
//!
//! Libraries stand on the one that they need.
#![tactic(auto)]

pub use ots_calendar_commands::{DaemonStatus, Returned, one_answer, run_calendar};
pub use ots_connection::{Served, Service, serve_connection};
pub use ots_workers::{Ended, Front, MAX_WORKERS, ServeEnd, Turn, serve_links};
