//! What no clause of `ots_journal` says: what a real file holds.
mod files;
