//! The sheet of replies that somebody carried back from calendars, read once as a stream.
//!
//! [`read_replies`] takes exactly the reply sheets that `ots_sheet` defines, and names the first line
//! that is wrong in any other text. [`Replies`] keeps each reply as bytes, in the order of the
//! requests, and finds that of a request.
#![tactic(auto)]

mod error;
mod hexadecimal;
mod laws;
mod reading;
mod replies;
mod shape;
mod store;
mod words;

pub use error::SheetError;
pub use laws::one_answer;
pub use reading::read_replies;
pub use replies::Replies;
