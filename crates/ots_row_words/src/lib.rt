//! How the scripts of rows spell words, numbers and bytes, and how their transcripts tell what came of
//! a line.
//!
//! A piece is hexadecimal digits, as `00ff`; `08*255`, so many times; `{0..9}00`, once for each number,
//! as two bytes and what stands around it; a text in quotes, with `\n`, `\r`, `\\` and `\"`; or `$NAME`,
//! of which `$NAME[..7]` is the prefix.
#![tactic(auto)]

mod pieces;
mod said;
mod table;
mod words;

pub use pieces::bytes_of;
pub use said::Said;
pub use table::{Row, Table};
pub use words::{malformed, number_of, numbers_of, range_of, text_of, texts_of, words_of};
