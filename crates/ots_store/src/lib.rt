//! The store: a calendar's records on a journal, with an index of commitments and ranges of anchors.
//!
//! A record is a commitment, a tip or an anchor, and lies in one entry of the journal. A tip begins
//! with the first commitment that no anchor covers and runs to the last one; an anchor is of an
//! earlier tip and reaches past what is covered.
//!
//! | call | what it is |
//! |---|---|
//! | [`Store::open`] | the records of a journal, or the first entry that is none |
//! | [`Store::add_commit`], [`Store::add_tip`], [`Store::add_anchor`] | one record more |
//! | [`Store::first_bad`], [`Store::add_group`] | which of some entries may not follow; all of them |
//! | [`Store::reserve`] | memory for one commitment or tip, taken before the disk is called |
//! | [`Store::refresh`] | after a fault: whether the records in flight are kept |
//! | [`Store::index_of`], [`Store::anchor_of`] | by the index and the ranges, with no walk |
//! | [`Store::page`] | some records from a number on, for whoever keeps a copy |
//!
//! The records in flight lie in memory after the acknowledged ones, and the index has room for
//! them, so that a refresh takes no memory. Beside the entries themselves each commitment is held
//! once, and the index is the list of their places in the order of the commitments, four bytes each.
#![tactic(auto)]

mod anchor;
mod errors;
mod form;
mod held;
mod index;
mod laws;
mod lists;
mod marked;
mod opening;
mod page;
mod progress;
mod ranges;
mod reading;
mod spelling;
mod store;
mod tip;
mod tips;

pub use anchor::Anchor;
pub use errors::{RefusedStore, StoreError};
pub use laws::{one_first_bad, one_record, ranges_rise, records_are_not_bad, records_are_spelled};
pub use page::MAX_PAGE_ENTRIES;
pub use store::Store;
pub use tip::Tip;
