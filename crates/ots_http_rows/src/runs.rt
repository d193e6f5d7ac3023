// Runs that ask calendars.
use crate::addresses::addresses_of;
use ots_address::Address;
use ots_base::OutOfMemory;
use ots_detached::read_bytes;
use ots_ops::Digest;
use ots_row_words::{Table, bytes_of, malformed, number_of, text_of};
use ots_tree::Detached;
use std::alloc::{AllocError, Global};
use std::io;

/// What calendars are asked for.
#[derive(Drop)]
pub enum Task {
    /// To timestamp this digest; the answers are to stand below so many operations.
    Stamp(Digest, u32),
    /// To timestamp the first files, so many, of which the one at this place has its proof.
    Prove(u64, usize),
    /// To complete this proof.
    Upgrade(Detached),
}

/// A run: what is asked, and whom.
#[derive(Drop)]
pub struct Run {
    pub task: Task,
    pub calendars: Vec<Address>,
}

/// The run of these words.
pub fn run_of(alloc: Global, named: &Table, word: &str, words: &[String]) -> io::Result<Run> {
    let (list, rest) = words.split_first().ok_or_else(malformed)?;
    let list = text_of(alloc, list.as_str())?;
    Ok(Run {
        task: task_of(alloc, named, word, rest)?,
        calendars: addresses_of(alloc, list.as_str())?,
    })
}

/// What the words after the addresses ask for.
fn task_of(alloc: Global, named: &Table, word: &str, rest: &[String]) -> io::Result<Task> {
    match word {
        "upgrade" => Ok(Task::Upgrade(proof_of(alloc, &bytes_of(alloc, named, rest)?)?)),
        "stamp" => {
            let (depth, pieces) = rest.split_first().ok_or_else(malformed)?;
            let digest = Digest::new(&bytes_of(alloc, named, pieces)?).ok_or_else(malformed)?;
            Ok(Task::Stamp(digest, number_of(depth.as_str())?.min(255) as u32))
        }
        _ => {
            let (count, rest) = rest.split_first().ok_or_else(malformed)?;
            let place = rest.first().ok_or_else(malformed)?;
            Ok(Task::Prove(
                number_of(count.as_str())?,
                number_of(place.as_str())? as usize,
            ))
        }
    }
}

/// The proof of this file.
fn proof_of(alloc: Global, file: &[u8]) -> io::Result<Detached> {
    read_bytes(alloc, file).map_err(|_| malformed())
}

/// The error for want of memory, with which the program ends.
pub fn no_memory(_: OutOfMemory) -> io::Error {
    io::Error::from(AllocError)
}
