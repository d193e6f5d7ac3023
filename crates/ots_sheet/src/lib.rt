//! What an archive asks calendars for, as a sheet of text that another program carries: the requests,
//! their order, and the printing of a request sheet. A reply sheet is defined here too; `ots_replies`
//! reads it.
//!
//! A sheet is lines of ASCII. Each but the last is a request, with its reply in a reply sheet, and
//! the last counts them and has the SHA-256 of all that stands before it.
//!
//! ```text
//! get https://alice.btc.calendar.opentimestamps.org 5d6a..
//! post https://a.pool.opentimestamps.org 0f3c..
//! sum 2 HEX
//! ```
#![tactic(auto)]

mod laws;
mod limits;
mod lines_sum;
mod reply;
mod request;
mod writing;

pub use laws::{one_order, one_reply_sheet, one_request_sheet};
pub use limits::{MAX_LINES, MAX_SHEET, POST_MESSAGE};
pub use lines_sum::LinesSum;
pub use reply::Reply;
pub use request::{Kind, Request};
pub use writing::write_requests;
