//! The words of the command line of `otsgate`, how a run of it ends, and the lines that it prints.
#![tactic(auto)]

mod gathering;
mod limits;
mod lines;
mod printing;
mod refusal;
mod status;
mod words;

pub use gathering::Gathering;
pub use limits::{MAX_ROUND, MAX_TREES};
pub use ots_arguments::WordsError;
pub use printing::{print_listening, print_refusal, print_round};
pub use status::GateStatus;
pub use words::read_words;
