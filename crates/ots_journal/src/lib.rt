//! The journal: groups of entries on a disk, each whole or absent after a crash at any moment.
//!
//! Each group lies after a gate, one byte. It is written and made durable after a closed gate,
//! and only then is the gate opened and made durable, so that no crash leaves a part of it.
//!
//! | call | what it is |
//! |---|---|
//! | [`Journal::open`] | the entries of a file, or a new journal where it has at most `EMPTY_JOURNAL` bytes |
//! | [`Journal::append`], [`Journal::append_group`] | one entry more, or a group of up to `MAX_GROUP` |
//! | [`Journal::refresh`] | after a fault: whether the group in flight is kept |
//! | [`read_version1`] | the entries of a journal of version 1, in memory |
#![tactic(auto)]

mod device;
mod entry;
mod errors;
mod finding;
mod journal;
mod laws;
mod limits;
mod opening;
mod place;
mod reading;
mod spelling;
mod stored;
mod version1;

pub use entry::{Entry, is_group};
pub use errors::{AppendError, DiskFault, JournalError, OldError, Refused};
pub use journal::Journal;
pub use laws::{
    bytes_stand_once, bytes_stand_once_1, one_gate, one_refusal, standing_is_not_refused,
    within_is_not_full,
};
pub use limits::{EMPTY_JOURNAL, MAX_ENTRY_PAYLOAD, MAX_GROUP, MAX_JOURNAL, MIN_ENTRY_PAYLOAD};
pub use version1::read_version1;
