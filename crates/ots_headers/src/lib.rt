//! Block headers of Bitcoin: their 80 bytes, their hash, and a table of them by height.
//!
//! The format is that of Bitcoin Core (`src/primitives/block.h`, `CBlockHeader`).
#![tactic(auto)]

mod hash;
mod header;
mod headers;
mod laws;

pub use hash::{block_hash, double_sha256};
pub use header::Header;
pub use headers::{Headers, HeadersError};
pub use laws::{heights_of_table, one_header, one_table};
