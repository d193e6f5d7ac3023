// Messages that are written.
use crate::addresses::addresses_of;
use crate::replies::{is_reply, text_reply};
use crate::runs::no_memory;
use ots_address::Address;
use ots_base::MAX_MESSAGE;
use ots_http::{Asked, Reply, write_reply, write_request};
use ots_io::{Bytes, BytesLink, Link};
use ots_ops::{Digest, Message};
use ots_reader::read_tree;
use ots_row_words::{Said, Table, bytes_of, malformed, number_of, text_of};
use ots_tree::Shape;
use std::alloc::Global;
use std::io;

/// Below a digest of 32 bytes.
const BELOW_DIGEST: Shape = Shape {
    length: 32,
    depth: 0,
};

/// What is written.
#[derive(Drop)]
enum Written {
    /// A reply of a calendar.
    Reply(Reply),
    /// What a client asks of the first of these.
    Request(Vec<Address>, Asked),
}

/// Says what a link takes of the message of these words, after how many bytes it holds and which write fails.
pub fn say_written(
    alloc: Global,
    named: &Table,
    words: &[String],
    said: &mut Said,
) -> io::Result<()> {
    let (room, rest) = words.split_first().ok_or_else(malformed)?;
    let (failing, rest) = rest.split_first().ok_or_else(malformed)?;
    let (kind, rest) = rest.split_first().ok_or_else(malformed)?;
    let message = message_of(alloc, named, kind.as_str(), rest)?;
    let room = number_of(room.as_str())? as usize;
    say_taken(alloc, room, number_of(failing.as_str())?, &message, said)
}

/// The message of this kind.
fn message_of(alloc: Global, named: &Table, kind: &str, rest: &[String]) -> io::Result<Written> {
    match kind {
        "tree" => tree_of(alloc, &bytes_of(alloc, named, rest)?),
        "page" => Ok(page_of(bytes_of(alloc, named, rest)?)),
        "records" => records_of(alloc, rest),
        "text" => words_of(alloc, rest),
        _ => request_of(alloc, named, kind, rest),
    }
}

/// The reply of the words that are one word of a script.
fn words_of(alloc: Global, rest: &[String]) -> io::Result<Written> {
    let words = text_of(alloc, rest.first().ok_or_else(malformed)?.as_str())?;
    let reply = text_reply(words.as_str()).ok_or_else(malformed)?;
    Ok(Written::Reply(reply))
}

/// The request to an address.
fn request_of(alloc: Global, named: &Table, kind: &str, rest: &[String]) -> io::Result<Written> {
    let (address, pieces) = rest.split_first().ok_or_else(malformed)?;
    let address = text_of(alloc, address.as_str())?;
    let asked = asked_of(alloc, kind, &bytes_of(alloc, named, pieces)?)?;
    Ok(Written::Request(addresses_of(alloc, address.as_str())?, asked))
}

/// The reply with the tree of these bytes.
fn tree_of(alloc: Global, bytes: &[u8]) -> io::Result<Written> {
    match read_tree(alloc, bytes, BELOW_DIGEST) {
        Ok((tree, _)) => Ok(Written::Reply(Reply::Tree(tree))),
        Err(_) => Err(malformed()),
    }
}

/// The reply with a page of these bytes.
fn page_of(bytes: Vec<u8>) -> Written {
    Written::Reply(Reply::Page(Bytes::from_vec(bytes)))
}

/// The request to an address for the records from a number on.
fn records_of(alloc: Global, rest: &[String]) -> io::Result<Written> {
    let (address, rest) = rest.split_first().ok_or_else(malformed)?;
    let address = text_of(alloc, address.as_str())?;
    let number = number_of(rest.first().ok_or_else(malformed)?.as_str())?;
    Ok(Written::Request(
        addresses_of(alloc, address.as_str())?,
        Asked::Records(number),
    ))
}

/// What a client asks with these bytes.
fn asked_of(alloc: Global, kind: &str, bytes: &[u8]) -> io::Result<Asked> {
    if kind == "post" {
        return Ok(Asked::Post(Digest::new(bytes).ok_or_else(malformed)?));
    }
    if kind != "get" || bytes.len() > MAX_MESSAGE {
        return Err(malformed());
    }
    let message = Message::new(alloc, bytes).map_err(no_memory)?;
    Ok(Asked::Get(message))
}

/// Says whether a message is written to a link that holds so many bytes, where the write of this number fails, and
/// what the link takes of it.
fn say_taken(
    alloc: Global,
    room: usize,
    failing: u64,
    message: &Written,
    said: &mut Said,
) -> io::Result<()> {
    let mut link = BytesLink::new(alloc, b"", &[], room, &[failing]).map_err(no_memory)?;
    let done = write_to(&mut link, message);
    said.word(if done { "done" } else { "fault" });
    said.quoted(link.taken());
    Ok(())
}

/// Whether a message is written to a link.
fn write_to<L: Link>(link: &mut L, message: &Written) -> bool {
    match message {
        Written::Reply(reply) => is_reply(reply) && write_reply(link, reply).is_ok(),
        Written::Request(addresses, asked) => match addresses.first() {
            Some(address) => write_request(link, address, asked).is_ok(),
            None => false,
        },
    }
}
