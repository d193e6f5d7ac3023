//! The operations of an OpenTimestamps proof: what they are, how they are spelled, how they are
//! ordered, and what they make of a message.
#![tactic(auto)]

mod arg;
mod arg_ref;
mod digest;
mod hash_op;
mod hasher;
mod in_place;
mod laws;
mod length;
mod message;
mod op;
mod op_ref;
mod ops;
mod order;
mod results;
mod spell;
mod tags;

pub use arg::{Arg, ArgError};
pub use arg_ref::ArgRef;
pub use digest::Digest;
pub use hash_op::HashOp;
pub use hasher::Hasher;
pub use in_place::apply_in_place;
pub use laws::{
    equal_operations, lengths_of_results, limits_of_borrowed_operation, limits_of_operation,
    one_operation, tags_of_operations,
};
pub use length::{OpError, result_length};
pub use message::Message;
pub use op::Op;
pub use op_ref::OpRef;
pub use ops::Ops;
pub use results::apply;
pub use spell::{MAX_SPELLED_OP, spell_op};
pub use tags::{
    APPEND_TAG, HEXLIFY_TAG, KECCAK256_TAG, PREPEND_TAG, REVERSE_TAG, RIPEMD160_TAG, SHA1_TAG,
    SHA256_TAG,
};
