// Operations and what they make.
//
// | line | its answer |
// |---|---|
// | `op argument BYTES` | the argument that these bytes are, and its copy |
// | `op borrowed BYTES` | the same where they stand, and as an owned one |
// | `op message BYTES` | the message of these bytes, of which there are at most 4096, and its copy |
// | `op list OP..` | how many operations a new list has, then the list of these, and its copy |
// | `op copy OP` | its copy, and whether both are the same |
// | `op order OP..` | how each compares with each |
// | `op spell OP` | its spelling in bytes aa, and whether all others stay |
// | `op length N OP` | the length of its result on N bytes |
// | `op apply OP BYTES` | its result, and that in place, in a buffer of bytes 78, and whether all others stay |
// | `op stands OP BYTES` | where its argument stands, and as an owned one: the length of the result, and in place |
use crate::names::Names;
use crate::ops::{op_of, ops_of, say_error, say_length, say_op, say_ops};
use crate::orders::say_order;
use crate::words::{bytes_of, split_number, split_word};
use ots_ops::{
    Arg, ArgError, ArgRef, MAX_SPELLED_OP, Message, Op, OpError, OpRef, Ops, apply, apply_in_place,
    result_length, spell_op,
};
use ots_row_words::Said;
use std::alloc::Global;

/// The longest message.
const MOST: usize = 4096;

/// Answers a question about operations.
pub fn answer(names: &Names, text: &str, said: &mut Said) {
    let (word, rest) = split_word(text);
    match word {
        "argument" => argument(names.allocator(), &bytes_of(names, rest), said),
        "borrowed" => borrowed(names.allocator(), &bytes_of(names, rest), said),
        "message" => message(names.allocator(), &bytes_of(names, rest), said),
        "list" => list(names.allocator(), &ops_of(names, rest), said),
        "order" => say_order(&ops_of(names, rest), said),
        "length" => length(names, rest, said),
        _ => on_bytes(names, word, rest, said),
    }
}

/// Answers a question about one operation, and bytes that stand after it.
fn on_bytes(names: &Names, word: &str, text: &str, said: &mut Said) {
    let (op, rest) = split_word(text);
    let bytes = bytes_of(names, rest);
    if let Some(op) = op_of(names, op) {
        match word {
            "copy" => copy(&op, said),
            "spell" => spell(&op, said),
            "apply" => applied(names.allocator(), &op, &bytes, said),
            _ => stands(names.allocator(), &op, &bytes, said),
        }
    }
}

fn argument(alloc: Global, bytes: &[u8], said: &mut Said) {
    match Arg::new(alloc, bytes) {
        Ok(argument) => {
            said.bytes(argument.bytes());
            say_copy(&argument, said);
        }
        Err(error) => say_refusal(error, said),
    }
}

/// Says the bytes of an argument's copy.
fn say_copy(argument: &Arg, said: &mut Said) {
    if let Ok(copy) = argument.copy() {
        said.bytes(copy.bytes());
    }
}

fn borrowed(alloc: Global, bytes: &[u8], said: &mut Said) {
    match ArgRef::new(bytes) {
        Ok(argument) => say_standing(alloc, argument, said),
        Err(error) => say_refusal(error, said),
    }
}

/// Says the bytes of an argument that stands elsewhere, and those of an owned one.
fn say_standing(alloc: Global, argument: ArgRef<'_>, said: &mut Said) {
    said.bytes(argument.bytes());
    if let Ok(owned) = argument.to_owned(alloc) {
        said.bytes(owned.bytes());
    }
}

/// Says why bytes are no argument.
fn say_refusal(error: ArgError, said: &mut Said) {
    match error {
        ArgError::Empty => said.word("empty"),
        ArgError::TooLong(length) => {
            said.word("too long");
            said.number(length);
        }
        ArgError::OutOfMemory => said.word("out of memory"),
    }
}

fn message(alloc: Global, bytes: &[u8], said: &mut Said) {
    if bytes.len() <= MOST
        && let Ok(message) = Message::new(alloc, bytes)
    {
        said.bytes(message.bytes());
        say_message_copy(&message, said);
    }
}

/// Says the bytes of a message's copy.
fn say_message_copy(message: &Message, said: &mut Said) {
    if let Ok(copy) = message.copy() {
        said.bytes(copy.bytes());
    }
}

fn list(alloc: Global, items: &[Op], said: &mut Said) {
    let mut ops = Ops::new(alloc);
    said.count(ops.items().len());
    for op in items {
        push_copy(op, &mut ops);
    }
    say_ops(ops.items(), said);
    if let Ok(copy) = ops.copy() {
        said.word("copied");
        say_ops(copy.items(), said);
    }
}

/// Appends the copy of an operation.
fn push_copy(op: &Op, ops: &mut Ops) {
    if let Ok(copy) = op.copy() {
        let _ = ops.push(copy);
    }
}

fn copy(op: &Op, said: &mut Said) {
    if let Ok(copy) = op.copy() {
        say_op(&copy, said);
        said.whether(copy == *op);
    }
}

fn spell(op: &Op, said: &mut Said) {
    let mut out = [0xaa; MAX_SPELLED_OP];
    let length = spell_op(op, &mut out);
    say_spelled(&out, length, 0xaa, said);
}

/// Says what was spelled, and whether all bytes after it are still this one.
pub fn say_spelled(out: &[u8], length: usize, other: u8, said: &mut Said) {
    if let Some((spelled, rest)) = out.split_at_checked(length) {
        said.bytes(spelled);
        said.whether(rest.iter().all(|byte| *byte == other));
    }
}

fn length(names: &Names, text: &str, said: &mut Said) {
    let (length, rest) = split_number(text);
    if let Some(op) = op_of(names, rest) {
        say_length(result_length(&op, length as usize), said);
    }
}

fn applied(alloc: Global, op: &Op, bytes: &[u8], said: &mut Said) {
    match apply(alloc, op, bytes) {
        Ok(result) => said.bytes(result.bytes()),
        Err(error) => say_error(error, said),
    }
    let message = buffer_of(bytes);
    let mut buffer = message;
    let made = apply_in_place(op, &mut buffer, bytes.len().min(MOST));
    say_in_place(&message, &buffer, made, said);
}

fn stands(alloc: Global, op: &Op, bytes: &[u8], said: &mut Said) {
    stands_there(op.borrowed(), bytes, said);
    if let Ok(owned) = op.borrowed().to_owned(alloc) {
        said.whether(owned == *op);
        stands_there(owned.borrowed(), bytes, said);
    }
}

fn stands_there(op: OpRef<'_>, bytes: &[u8], said: &mut Said) {
    say_length(op.result_length(bytes.len()), said);
    let message = buffer_of(bytes);
    let mut buffer = message;
    let made = op.apply_in_place(&mut buffer, bytes.len().min(MOST));
    say_in_place(&message, &buffer, made, said);
}

/// A buffer of bytes 78 that begins with these, where they are not too many.
fn buffer_of(bytes: &[u8]) -> [u8; MOST] {
    let mut buffer = [0x78; MOST];
    if let Some(prefix) = buffer.get_mut(..bytes.len()) {
        prefix.copy_from_slice(bytes);
    }
    buffer
}

/// Says what was made in a buffer, and whether all after it stays, or all where nothing was made.
fn say_in_place(before: &[u8], now: &[u8], made: Result<usize, OpError>, said: &mut Said) {
    said.word("in place");
    match made {
        Ok(length) => {
            said.bytes(now.get(..length).unwrap_or(&[]));
            said.whether(now.get(length..) == before.get(length..));
        }
        Err(error) => {
            say_error(error, said);
            said.whether(now == before);
        }
    }
}
