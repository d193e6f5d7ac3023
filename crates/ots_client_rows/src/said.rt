// What is said of a run.
use crate::left::{Ended, Left};
use hex::encode;
use ots_row_words::Row;
use std::alloc::{AllocError, Global};

/// The longest bytes that are printed where others were wanted.
const SHORT: usize = 300;

/// Says a line.
pub fn say_line(line: &str, said: &mut Vec<u8>) -> Result<(), AllocError> {
    said.extend_from_slice(line.as_bytes())?;
    said.push(b'\n')?;
    Ok(())
}

/// Says what a run left: its text, the files that it made and those that it changed, the number that it ended with,
/// and whom it asked.
pub fn say_left(alloc: Global, left: &Left, said: &mut Vec<u8>) -> Result<(), AllocError> {
    said.extend_from_slice(&left.ended.text)?;
    for file in left.made.rows() {
        say_made(alloc, file, said)?;
    }
    for name in &left.changed {
        say_line(format!(in alloc; "! {name}")?.as_str(), said)?;
    }
    say_ended(alloc, &left.ended, said)
}

/// Says that a file was made, and its length.
fn say_made(alloc: Global, file: &Row, said: &mut Vec<u8>) -> Result<(), AllocError> {
    let (name, length) = (file.name.as_str(), file.bytes.len());
    say_line(format!(in alloc; "+ {name} {length}")?.as_str(), said)
}

/// Says the number that a run ended with, and whom it asked.
fn say_ended(alloc: Global, ended: &Ended, said: &mut Vec<u8>) -> Result<(), AllocError> {
    let number = ended.number;
    let mut line = format!(in alloc; "= {number}")?;
    if !ended.asked.rows().is_empty() {
        line.push_str(", asked")?;
    }
    for sent in ended.asked.rows() {
        line.push_str(" ")?;
        line.push_str(sent.name.as_str())?;
    }
    say_line(line.as_str(), said)
}

/// Says whether these are the bytes that were wanted, and what there is where they are not.
pub fn say_compared(
    alloc: Global,
    found: Option<&[u8]>,
    wanted: &[u8],
    said: &mut Vec<u8>,
) -> Result<(), AllocError> {
    match found {
        Some(bytes) if bytes == wanted => say_line("= so it is", said),
        Some(bytes) => say_other(alloc, bytes, said),
        None => say_line("= no: nothing", said),
    }
}

/// Says which bytes there are in place of those that were wanted.
fn say_other(alloc: Global, bytes: &[u8], said: &mut Vec<u8>) -> Result<(), AllocError> {
    let length = bytes.len();
    let other = if length > SHORT {
        format!(in alloc; "{length} bytes")?
    } else {
        encode(alloc, bytes)?
    };
    say_line(format!(in alloc; "= no: {other}")?.as_str(), said)
}
