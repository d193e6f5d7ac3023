// What a transcript says of a run.
use crate::on::On;
use crate::run::{Ended, Known, Left, Links};
use hex::encode;
use ots_io::OutOfMemory;
use sha2::{Digest, Sha256};
use std::alloc::Global;

/// The longest text that is repeated, and the most bytes that are told where others were wanted.
const REPEATED: usize = 20_000;

const TOLD: usize = 1000;

/// What a run on that printed, how it ended, whether it called the disk, how long the journal is then,
/// and what its links got.
pub fn told_of(alloc: Global, ended: &Ended, left: &Left, on: &On) -> Result<Vec<u8>, OutOfMemory> {
    let mut said = Vec::new(alloc);
    if !on.is_quiet {
        push_text(alloc, &mut said, &ended.text)?;
    }
    let status = ended.status;
    let known = word_of(left.known);
    let length = left.bytes.len();
    push(
        &mut said,
        &format!(in alloc; "= {status}, {known}, {length} bytes\n")?,
    )?;
    if !on.links.is_empty() {
        push_links(alloc, &mut said, &ended.links)?;
    }
    Ok(said)
}

/// What is known of the disk.
fn word_of(known: Known) -> &'static str {
    match known {
        Known::Called => "disk called",
        Known::NotCalled => "disk not called",
        Known::Device => "on the device",
    }
}

/// Appends a text.
fn push(said: &mut Vec<u8>, text: &str) -> Result<(), OutOfMemory> {
    said.extend_from_slice(text.as_bytes())?;
    Ok(())
}

/// Appends what was printed, or what a long text is known by.
fn push_text(alloc: Global, said: &mut Vec<u8>, text: &[u8]) -> Result<(), OutOfMemory> {
    if text.len() <= REPEATED {
        said.extend_from_slice(text)?;
        return Ok(());
    }
    let lines = text.iter().filter(|byte| **byte == b'\n').count();
    let length = text.len();
    let digest = encode(alloc, &Sha256::digest(text))?;
    push(
        said,
        &format!(in alloc; "= {lines} lines, {length} bytes, sha256 {digest}\n")?,
    )
}

/// Appends what was done with the links, and a line for each reply.
fn push_links(alloc: Global, said: &mut Vec<u8>, links: &Links) -> Result<(), OutOfMemory> {
    let accepted = links.accepted;
    let returned = links.replies.len();
    let coming = links.coming;
    push(
        said,
        &format!(in alloc; "= {accepted} accepted, {returned} given back, {coming} to come\n")?,
    )?;
    for reply in &links.replies {
        push(said, "= reply ")?;
        push_escaped(alloc, said, reply)?;
        push(said, "\n")?;
    }
    Ok(())
}

/// Appends bytes as a text, in which those that are no printed character stand after a backslash.
fn push_escaped(alloc: Global, said: &mut Vec<u8>, bytes: &[u8]) -> Result<(), OutOfMemory> {
    for byte in bytes {
        match *byte {
            b'\r' => push(said, "\\r")?,
            b'\n' => push(said, "\\n")?,
            b'\\' => push(said, "\\\\")?,
            b' '..=b'~' => said.push(*byte)?,
            other => push(said, &format!(in alloc; "\\x{other:02x}")?)?,
        }
    }
    Ok(())
}

/// Whether these are the bytes that are wanted; else what they are.
pub fn compared(alloc: Global, bytes: &[u8], wanted: &[u8]) -> Result<Vec<u8>, OutOfMemory> {
    let mut said = answer(alloc, bytes == wanted)?;
    if bytes != wanted && bytes.len() <= TOLD {
        let digits = encode(alloc, bytes)?;
        push(&mut said, &format!(in alloc; "= but {digits}\n")?)?;
    }
    Ok(said)
}

/// The line of a question's answer.
pub fn answer(alloc: Global, is_so: bool) -> Result<Vec<u8>, OutOfMemory> {
    let mut said = Vec::new(alloc);
    push(&mut said, if is_so { "= so it is\n" } else { "= no\n" })?;
    Ok(said)
}
