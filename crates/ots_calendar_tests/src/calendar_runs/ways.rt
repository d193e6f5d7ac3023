// Where the paths of trees lead.
use crate::calendar_runs::books::{is_written, uri};
use ots_calendar::{Book, Receipt, Taken, Ticket};
use ots_disk::Disk;
use ots_io::BytesSink;
use ots_ops::Op;
use ots_tree::{Token, Tree, spell_to};
use sha2::{Digest, Sha256};
use std::alloc::Global;
use std::test::Fail;

/// What is given for a ticket whose round is closed.
#[derive(Clone, Copy)]
pub struct Given {
    pub receipt: Receipt,
    /// How many tokens its tree has.
    pub tokens: usize,
}

/// Takes a ticket whose round is closed. The tree leads to the commitment of its receipt, which is
/// stored where the receipt says.
pub fn give<D: Disk>(alloc: Global, book: &mut Book<D>, ticket: &Ticket) -> Result<Given, Fail> {
    let (tree, receipt) = taken(alloc, book, ticket)?;
    let reached = led_to(alloc, &tree, ticket.leaf.bytes())?;
    if reached.as_slice() != receipt.commitment.as_slice() || !stands(book, &receipt) {
        return Err(Fail::from("another commitment"));
    }
    Ok(Given {
        receipt,
        tokens: tree.tokens().len(),
    })
}

/// Whether a ticket is given with this tree, in hexadecimal.
pub fn is_given<D: Disk>(
    alloc: Global,
    book: &mut Book<D>,
    ticket: &Ticket,
    tree: &str,
) -> Result<bool, Fail> {
    let (given, _) = taken(alloc, book, ticket)?;
    is_spelled(alloc, &given, tree)
}

/// Whether a tree is spelled by these bytes, in hexadecimal.
pub fn is_spelled(alloc: Global, tree: &Tree, digits: &str) -> Result<bool, Fail> {
    let mut sink = BytesSink::new(alloc, 10_000, &[])?;
    spell_to(tree, &mut sink)?;
    is_written(alloc, sink.bytes(), digits)
}

/// The tree and the receipt of a ticket whose round is closed.
fn taken<D: Disk>(
    alloc: Global,
    book: &mut Book<D>,
    ticket: &Ticket,
) -> Result<(Tree, Receipt), Fail> {
    match book.take(ticket, &uri(alloc)?)? {
        Taken::Settled(tree, receipt) => Ok((tree, receipt)),
        _ => Err(Fail::from("not given")),
    }
}

/// Whether the commitment of a receipt is stored where it says.
fn stands<D: Disk>(book: &Book<D>, receipt: &Receipt) -> bool {
    let store = book.store();
    receipt.index < store.commits() && store.commit(receipt.index) == receipt.commitment
}

/// What the operations of a tree of one path make of a message, by plain means.
fn led_to(alloc: Global, tree: &Tree, message: &[u8]) -> Result<Vec<u8>, Fail> {
    let mut reached = Vec::from_slice(alloc, message)?;
    for token in tree.tokens() {
        if let Token::Op(op) = token {
            reached = after(alloc, op, &reached)?;
        }
    }
    Ok(reached)
}

/// What one of these operations makes of a message.
fn after(alloc: Global, op: &Op, message: &[u8]) -> Result<Vec<u8>, Fail> {
    match op {
        Op::Append(argument) => joined(alloc, message, argument.bytes()),
        Op::Prepend(argument) => joined(alloc, argument.bytes(), message),
        Op::Sha256 => Ok(Vec::from_slice(alloc, &Sha256::digest(message))?),
        _ => Err(Fail::from("another operation")),
    }
}

fn joined(alloc: Global, first: &[u8], second: &[u8]) -> Result<Vec<u8>, Fail> {
    let mut bytes = Vec::from_slice(alloc, first)?;
    bytes.extend_from_slice(second)?;
    Ok(bytes)
}
