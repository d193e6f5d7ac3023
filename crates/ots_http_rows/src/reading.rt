// Messages that are read.
use crate::reads::{Came, Reads};
use crate::runs::no_memory;
use ots_http::{HttpReply, ReplyError, Request, RequestError, read_reply, read_request};
use ots_io::{BytesLink, Link};
use ots_row_words::{Said, Table, bytes_of, malformed};
use std::alloc::Global;
use std::io;

/// Which reader of messages is tried.
#[derive(Clone, Copy)]
pub enum Reader {
    Requests,
    Replies,
}

/// Says what is read of the message of these words, after one for how it comes.
pub fn say_reading(
    alloc: Global,
    named: &Table,
    reader: Reader,
    words: &[String],
    said: &mut Said,
) -> io::Result<()> {
    let (how, rest) = words.split_first().ok_or_else(malformed)?;
    match how.as_str() {
        "whole" => say_whole(alloc, reader, &bytes_of(alloc, named, rest)?, said),
        "faults" => say_faults(alloc, reader, &bytes_of(alloc, named, rest)?, said),
        "cut" => say_cut(alloc, named, reader, rest, said),
        _ => Err(malformed()),
    }
}

/// Says what is read of bytes in one piece, and byte by byte.
fn say_whole(alloc: Global, reader: Reader, bytes: &[u8], said: &mut Said) -> io::Result<()> {
    came(alloc, reader, bytes, &[], 0)?.say(said);
    let ones = vec![in alloc; 1; bytes.len()]?;
    came(alloc, reader, bytes, &ones, 0)?.say(said);
    Ok(())
}

/// Says the same, and what is read byte by byte where the 1st read fails, the 2nd, and so on.
fn say_faults(alloc: Global, reader: Reader, bytes: &[u8], said: &mut Said) -> io::Result<()> {
    say_whole(alloc, reader, bytes, said)?;
    let ones = vec![in alloc; 1; bytes.len()]?;
    let mut reads = Reads::new(alloc);
    for before in 0..bytes.len() {
        let failing = (before as u64).saturating_add(1);
        reads.add(came(alloc, reader, bytes, &ones, failing)?, said);
    }
    reads.end(said);
    Ok(())
}

/// Says what is read of bytes in pieces of the sizes that stand before them.
fn say_cut(
    alloc: Global,
    named: &Table,
    reader: Reader,
    words: &[String],
    said: &mut Said,
) -> io::Result<()> {
    let (sizes, rest) = words.split_first().ok_or_else(malformed)?;
    let mut pieces = Vec::new(alloc);
    for size in sizes.split(',') {
        pieces.push(size.parse::<usize>().map_err(|_| malformed())?)?;
    }
    let bytes = bytes_of(alloc, named, rest)?;
    came(alloc, reader, &bytes, &pieces, 0)?.say(said);
    Ok(())
}

/// What is read of bytes in pieces of these sizes, where the read of this number fails, none for 0.
fn came(
    alloc: Global,
    reader: Reader,
    bytes: &[u8],
    pieces: &[usize],
    failing: u64,
) -> io::Result<Came> {
    let mut link = BytesLink::new(alloc, bytes, pieces, 0, &[failing]).map_err(no_memory)?;
    Ok(Came {
        words: read_from(alloc, reader, &mut link),
        read: link.given().len(),
    })
}

/// What a reader says of a link.
fn read_from<L: Link>(alloc: Global, reader: Reader, link: &mut L) -> Said {
    let mut said = Said::new(alloc);
    match reader {
        Reader::Requests => say_request(&read_request(link), &mut said),
        Reader::Replies => say_reply(&read_reply(alloc, link), &mut said),
    }
    said
}

/// Says a request.
fn say_request(answer: &Result<Request, RequestError>, said: &mut Said) {
    match answer {
        Ok(Request::Digest(leaf)) => {
            said.word("digest");
            said.digits(leaf.bytes());
        }
        Ok(Request::Timestamp(wanted)) => {
            said.word("timestamp");
            said.digits(wanted.bytes());
        }
        Ok(Request::Records(number)) => {
            said.word("records");
            said.number(*number);
        }
        Ok(Request::Refused(status)) => {
            said.word("refused");
            said.number(u64::from(*status));
        }
        Err(RequestError::Closed) => said.word("closed"),
        Err(RequestError::LinkFault) => said.word("fault"),
    }
}

/// Says a reply.
fn say_reply(answer: &Result<HttpReply, ReplyError>, said: &mut Said) {
    match answer {
        Ok(HttpReply::Good(body)) => {
            said.word("good");
            said.bytes(body.items());
        }
        Ok(HttpReply::Status(status)) => {
            said.word("status");
            said.number(u64::from(*status));
        }
        Err(ReplyError::TooLong) => said.word("too long"),
        Err(ReplyError::BadHttp) => said.word("not http"),
        Err(ReplyError::LinkFault) => said.word("fault"),
        Err(ReplyError::OutOfMemory) => said.word("out of memory"),
    }
}
