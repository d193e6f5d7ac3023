//! The numbers behind each limit of the formats and the programs, as laws: who changes a limit changes one of these.
//!
//! No code calls them. A limit that is a sum of others is said as its number, too.
#![tactic(auto)]

mod limits;

pub use limits::{
    limits_of_calendars, limits_of_commands, limits_of_conversations, limits_of_journals,
    limits_of_memory, limits_of_proofs, limits_of_time,
};
