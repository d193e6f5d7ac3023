// What a transcript tells of a run.
use crate::run::{Ended, Left, Sent};
use ots_row_words::{Said, malformed};
use std::{io, str};

/// Tells what a run left.
pub fn tell_left(left: &Left, said: &mut Said) -> io::Result<()> {
    match &left.ended {
        Some(ended) => {
            said.push(str::from_utf8(&ended.text).map_err(|_| malformed())?);
            said.push("=");
            said.number(u64::from(ended.status));
        }
        None => said.push("= stopped"),
    }
    said.push(if left.called {
        ", disk called,"
    } else {
        ", disk not called,"
    });
    said.count(left.journal.len());
    said.push(" bytes\n");
    if let Some(ended) = &left.ended {
        tell_all_sent(ended, said);
    }
    Ok(())
}

/// Tells what was sent in each conversation.
fn tell_all_sent(ended: &Ended, said: &mut Said) {
    for sent in &ended.sent {
        tell_sent(sent, said);
    }
}

/// Tells the first line of what was sent, and to whom.
fn tell_sent(sent: &Sent, said: &mut Said) {
    said.push("= sent");
    said.word(sent.host.as_str());
    said.number(u64::from(sent.port));
    said.quoted(first_line(&sent.bytes));
    said.push("\n");
}

/// The bytes before the first end of a line.
fn first_line(bytes: &[u8]) -> &[u8] {
    match bytes.iter().position(|byte| *byte == b'\r') {
        Some(end) => bytes.get(..end).unwrap_or(bytes),
        None => bytes,
    }
}

/// Tells whether these are the bytes that are wanted; else what they are.
pub fn tell_compared(bytes: &[u8], wanted: &[u8], said: &mut Said) {
    if bytes == wanted {
        said.push("= so it is\n");
    } else {
        said.push("= no:");
        said.bytes(bytes);
        said.push("\n");
    }
}
