// How a script spells operations, and a transcript says them.
use crate::names::Names;
use crate::words::{bytes_of, split_times};
use ots_ops::{Arg, Op, OpError};
use ots_row_words::Said;

/// The operation of a word. One whose argument is refused is none.
pub fn op_of(names: &Names, word: &str) -> Option<Op> {
    match word.split_once(':') {
        Some(("append", argument)) => Some(Op::Append(argument_of(names, argument)?)),
        Some((_, argument)) => Some(Op::Prepend(argument_of(names, argument)?)),
        None => bare(word),
    }
}

/// The operation without an argument that has this name.
fn bare(name: &str) -> Option<Op> {
    match name {
        "sha1" => Some(Op::Sha1),
        "ripemd160" => Some(Op::Ripemd160),
        "sha256" => Some(Op::Sha256),
        "reverse" => Some(Op::Reverse),
        "hexlify" => Some(Op::Hexlify),
        _ => None,
    }
}

/// The argument of these bytes, where they are one.
fn argument_of(names: &Names, text: &str) -> Option<Arg> {
    Arg::new(names.allocator(), &bytes_of(names, text)).ok()
}

/// The operations of these words. One without an argument may stand so many times, as `sha256*255`.
pub fn ops_of(names: &Names, text: &str) -> Vec<Op> {
    let mut ops = Vec::new(names.allocator());
    for word in text.split(' ') {
        push_ops(names, word, &mut ops);
    }
    ops
}

/// Appends the operation of a word, as often as it stands.
fn push_ops(names: &Names, word: &str, ops: &mut Vec<Op>) {
    let (name, times) = if word.contains(':') {
        (word, 1)
    } else {
        split_times(word)
    };
    for _ in 0..times {
        if let Some(op) = op_of(names, name) {
            let _ = ops.push(op);
        }
    }
}

/// Says an operation.
pub fn say_op(op: &Op, said: &mut Said) {
    match op {
        Op::Sha1 => said.word("sha1"),
        Op::Ripemd160 => said.word("ripemd160"),
        Op::Sha256 => said.word("sha256"),
        Op::Reverse => said.word("reverse"),
        Op::Hexlify => said.word("hexlify"),
        Op::Append(argument) => say_with("append", argument, said),
        Op::Prepend(argument) => say_with("prepend", argument, said),
    }
}

/// Says an operation with its argument.
fn say_with(name: &str, argument: &Arg, said: &mut Said) {
    said.word(name);
    said.bytes(argument.bytes());
}

/// Says operations.
pub fn say_ops(ops: &[Op], said: &mut Said) {
    for op in ops {
        say_op(op, said);
    }
}

/// Says why an operation has no result.
pub fn say_error(error: OpError, said: &mut Said) {
    match error {
        OpError::TooLong { have, limit } => {
            said.word("too long");
            said.count(have);
            said.count(limit);
        }
        OpError::Empty => said.word("empty"),
        OpError::OutOfMemory => said.word("out of memory"),
    }
}

/// Says the length of a result, or why there is none.
pub fn say_length(length: Result<usize, OpError>, said: &mut Said) {
    match length {
        Ok(length) => said.count(length),
        Err(error) => say_error(error, said),
    }
}
