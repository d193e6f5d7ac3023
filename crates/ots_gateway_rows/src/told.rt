// What a transcript tells of a run.
use crate::links::Links;
use crate::run::{Ended, Sent};
use ots_row_words::{Said, malformed};
use std::alloc::{AllocError, Global};
use std::{io, str};

/// How many links are told one by one.
const FEW: usize = 32;

/// Tells how a run ended.
pub fn tell_ended(alloc: Global, ended: &Ended, said: &mut Said) -> io::Result<()> {
    said.push(str::from_utf8(&ended.text).map_err(|_| malformed())?);
    said.push("=");
    said.number(u64::from(ended.status));
    said.push(",");
    tell_links(alloc, &ended.links, said)?;
    for sent in &ended.sent {
        tell_sent(sent, said);
    }
    Ok(())
}

/// Tells what was done with the links, and what they have taken.
fn tell_links(alloc: Global, links: &Links, said: &mut Said) -> Result<(), AllocError> {
    said.number(links.accepted);
    said.word("accepted,");
    said.count(links.taken.len());
    said.word("given back,");
    said.count(links.coming);
    said.word("to come\n");
    if links.taken.len() > FEW {
        tell_taken(&all_of(alloc, &links.taken)?, said);
    } else {
        tell_each_taken(&links.taken, said);
    }
    Ok(())
}

/// Tells what each link has taken.
fn tell_each_taken(taken: &[Vec<u8>], said: &mut Said) {
    for bytes in taken {
        tell_taken(bytes, said);
    }
}

/// Tells what was taken.
fn tell_taken(bytes: &[u8], said: &mut Said) {
    said.push("= took");
    said.quoted(bytes);
    said.push("\n");
}

/// All of these bytes, one after the other.
fn all_of(alloc: Global, parts: &[Vec<u8>]) -> Result<Vec<u8>, AllocError> {
    let mut all = Vec::new(alloc);
    for part in parts {
        all.extend_from_slice(part)?;
    }
    Ok(all)
}

/// Tells what was sent, and to whom.
fn tell_sent(sent: &Sent, said: &mut Said) {
    said.push("= sent");
    said.word(sent.host.as_str());
    said.number(u64::from(sent.port));
    said.quoted(&sent.bytes);
    said.push("\n");
}

/// Tells whether these are the bytes that are wanted; else what they are.
pub fn tell_compared(bytes: &[u8], wanted: &[u8], said: &mut Said) {
    if bytes == wanted {
        said.push("= so it is\n");
    } else {
        said.push("= no:");
        said.quoted(bytes);
        said.push("\n");
    }
}
