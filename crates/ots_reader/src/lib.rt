//! Reading timestamp trees: the tree at the start of some bytes, or where and why there is none; and
//! trees that come in pieces, whole or token by token.
//!
//! The format is that of the reference library python-opentimestamps
//! (`opentimestamps/core/timestamp.py`), here with one spelling a tree.
#![tactic(auto)]

mod arrived;
mod came;
mod cut;
mod fault;
mod fed;
mod front;
mod laws;
mod next;
mod reading;
mod token;
mod token_reader;
mod tree_reader;
mod turn;

pub use fault::{Fault, ReadError, Reason};
pub use fed::Fed;
pub use laws::{
    fault_or_tree, faults_stay, no_fault_at_a_token, one_fault, one_tree_at_the_start, pieces,
};
pub use next::Next;
pub use reading::read_tree;
pub use token::read_token;
pub use token_reader::{TOKEN_READER_BYTES, TokenReader};
pub use tree_reader::TreeReader;
