//! The book: a calendar's records, what it answers of them, and the rounds that are put into it.
//!
//! | call | what it is |
//! |---|---|
//! | [`Book::open`] | the book of a store whose records' values are right |
//! | [`Book::put`], [`Book::close`] | a digest waits; one commitment over all that wait |
//! | [`Book::take`], [`Book::withdraw`] | the tree of a ticket whose round is closed; a ticket given up |
//! | [`Book::ask`] | what is answered of a commitment |
//! | [`Book::prepare`], [`Prepared::answer`] | the same in two steps, the second without the book |
//! | [`Book::tip`], [`Book::anchor`] | the tree over what is not covered; its root found in a block |
//! | [`calls_grow`], [`answers_stay`] | records are added at the end alone; what holds of answers then |
//! | [`answers_after_a_crash`] | what a book that is opened after a crash answers |
//! | [`cycle`] | where the whole way leads |
//! | [`trees_are_short`] | a tree that is answered is under 10,000 bytes |
//!
//! A call that may write begins with a refresh of the store, so that a record in flight that was
//! kept counts first. At every moment each image that a crash may leave stands for a book.
//!
//! `tip` and `ask` take some hundred hashes, by trees that a book keeps in 2.7 bytes a commitment (and hash
//! all commitments of the tip or the anchor where memory for them ran out). Each commitment is hashed once, and
//! once more where an anchor came between. `take` and `withdraw` search by the number, move no other ticket, and
//! walk over the tickets only for one that is not there.
#![tactic(auto)]

mod anchoring;
mod answer;
mod answering;
mod book;
mod errors;
mod laws;
mod prepared;
mod values;

pub use answer::Answer;
pub use book::Book;
pub use errors::{AnchorError, RefusedBook, TipError};
pub use laws::{
    answers_after_a_crash, answers_stay, calls_grow, cycle, one_ticket, trees_are_short,
};
pub use ots_outside::{DigestLength, Leaf};
pub use ots_round::{BadKey, Key, Receipt, Ticket, hmac_sha256};
pub use ots_tickets::{MAX_WAITING, PutError, Taken};
pub use prepared::Prepared;
