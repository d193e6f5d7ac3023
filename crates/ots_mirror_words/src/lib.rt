//! The words of the command line of `otsmirror`, how a run of it ends, and the lines that it prints.
#![tactic(auto)]

mod lines;
mod outcome;
mod refusal;
mod status;
mod words;

pub use lines::{put_records, put_round};
pub use ots_arguments::WordsError;
pub use outcome::RoundOutcome;
pub use refusal::put_refusal;
pub use status::MirrorStatus;
pub use words::{Mirroring, read_words};
