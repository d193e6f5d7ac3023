//! RIPEMD-160, the hash function of "RIPEMD-160: A Strengthened Version of RIPEMD" (H. Dobbertin,
//! A. Bosselaers, B. Preneel, 1996), over a whole message or piece by piece.
#![tactic(auto)]

mod block;
mod hasher;
mod once;
mod rounds;

pub use hasher::Ripemd160;
pub use once::ripemd160;
