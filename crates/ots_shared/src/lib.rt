//! A book that up to 65 callers share. Each draws a number, waits until it is served, and then has
//! the book for as long as it holds it.
//!
//! | call | what it is |
//! |---|---|
//! | [`Shared::open`], [`Shared::close`] | a book is shared; the book again, once one caller is left |
//! | [`Shared::split`], [`Shared::join`] | a pass for one caller more; two passes made one |
//! | [`Shared::share_seen`] | each of two passes sees what the other has seen |
//! | [`Shared::hold`], [`Shared::release`] | the book for one caller alone; the book given back |
//! | [`Shared::turn_to_ask`] | a turn among callers that hold the book briefly, taken before `hold` |
//! | [`Shared::acknowledged`] | how many records there are at least, without holding the book |
//! | [`Held::book`] | the book of a hold |
//! | [`receipts_stay`] | a receipt that is good stays good |
//!
//! What a caller has seen stays: the book that it holds next begins with these records. `hold` and
//! `turn_to_ask` alone may wait. Nothing is said of when a caller that waits is served.
#![tactic(auto)]

mod bells;
mod held;
mod known;
mod laws;
mod lends;
mod limits;
mod pass;
mod plays;
mod row;
mod rule;
mod shared;
mod steps;
mod view;

pub use held::Held;
pub use laws::receipts_stay;
pub use limits::MAX_CALLERS;
pub use pass::Pass;
pub use row::Row;
pub use shared::{RefusedShared, Shared};
