//! Blocks of Bitcoin: their bytes, field by field, and of each transaction the form without its
//! witness and the id.
//!
//! The format is that of Bitcoin Core (`src/primitives/block.h`, `src/primitives/transaction.h`,
//! `src/serialize.h`) and of BIP 144.
#![tactic(auto)]

mod block;
mod compact;
mod fault;
mod fields;
mod laws;
mod limits;
mod places;
mod stop;
mod transactions;

pub use block::Block;
pub use fault::{BlockError, BlockReason};
pub use laws::{block_or_fault, fault_within, one_form};
pub use limits::MAX_COMPACT;
