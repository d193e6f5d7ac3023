//! Block headers and blocks of Bitcoin, under one path.
//!
//! | crate | what it has |
//! |---|---|
//! | `ots_headers` | the 80 bytes of a header, its hash, and a table of headers by height |
//! | `ots_block` | a whole block: its transactions, without their witness, and their ids |
//!
//! Libraries stand on the one that they need.
#![tactic(auto)]

pub use ots_block::{
    Block, BlockError, BlockReason, MAX_COMPACT, block_or_fault, fault_within, one_form,
};
pub use ots_headers::{
    Header, Headers, HeadersError, block_hash, double_sha256, heights_of_table, one_header,
    one_table,
};
