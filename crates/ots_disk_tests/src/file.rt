//! What no clause of `ots_file` says: that a real file is written, found again, locked and refused; and
//! over a file in memory, of which each call fails in turn, that the device holds what a journal
//! acknowledged. For a calendar's receipts rows of `ots_calendar_rows` say so.
pub mod files;
mod journal;
