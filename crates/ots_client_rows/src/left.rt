// What a run leaves.
use crate::stage::Stage;
use ots_io::MapShelf;
use ots_row_words::Table;
use std::alloc::{AllocError, Global};
use std::io::ErrorKind;
use std::rt::Files;
use std::{fs, io};

/// How a run ended: its number, what it printed, and what it sent in each conversation, by host and port.
#[derive(Drop)]
pub struct Ended {
    pub number: u8,
    pub text: Vec<u8>,
    pub asked: Table,
}

/// What a run leaves: how it ended, the files that it made, and the names of those that it changed.
#[derive(Drop)]
pub struct Left {
    pub ended: Ended,
    pub made: Table,
    pub changed: Vec<String>,
}

impl Left {
    /// What is left where nothing was run.
    pub fn nothing(alloc: Global) -> Left {
        Left {
            ended: Ended {
                number: 0,
                text: Vec::new(alloc),
                asked: Table::new(alloc),
            },
            made: Table::new(alloc),
            changed: Vec::new(alloc),
        }
    }
}

/// Files by their names.
pub trait Contents {
    /// What a file holds, where it is there.
    fn held(&self, alloc: Global, name: &str) -> io::Result<Option<Vec<u8>>>;
}

impl Contents for MapShelf {
    fn held(&self, alloc: Global, name: &str) -> io::Result<Option<Vec<u8>>> {
        match self.bytes_of(name) {
            Some(bytes) => Ok(Some(bytes.to_vec(alloc)?)),
            None => Ok(None),
        }
    }
}

/// The files in the folder where this program runs.
#[derive(Drop)]
pub struct Folder<'a, R: Files + AllocGlobal> {
    pub rt: &'a R,
}

impl<R: Files + AllocGlobal> Contents for Folder<'_, R> {
    fn held(&self, _alloc: Global, name: &str) -> io::Result<Option<Vec<u8>>> {
        match fs::read(self.rt, name) {
            Ok(bytes) => Ok(Some(bytes)),
            Err(error) if error.kind() == ErrorKind::NotFound => Ok(None),
            Err(error) => Err(error),
        }
    }
}

/// What a run of these words on that left, which ended so.
pub fn left_by<C: Contents>(
    alloc: Global,
    words: &[String],
    stage: &Stage,
    contents: &C,
    ended: Ended,
) -> io::Result<Left> {
    Ok(Left {
        ended,
        made: made_by(alloc, words, stage, contents)?,
        changed: changed_by(alloc, stage, contents)?,
    })
}

/// The files that a run made: those under its words, and under these with `.ots` after them.
fn made_by<C: Contents>(
    alloc: Global,
    words: &[String],
    stage: &Stage,
    contents: &C,
) -> io::Result<Table> {
    let mut made = Table::new(alloc);
    for word in words {
        let proof = format!(in alloc; "{word}.ots")?;
        put_made(alloc, word.as_str(), stage, contents, &mut made)?;
        put_made(alloc, proof.as_str(), stage, contents, &mut made)?;
    }
    Ok(made)
}

/// Puts what there is under a name that was not there before.
fn put_made<C: Contents>(
    alloc: Global,
    name: &str,
    stage: &Stage,
    contents: &C,
    made: &mut Table,
) -> io::Result<()> {
    if stage.files.get(name).is_some() {
        return Ok(());
    }
    if let Some(bytes) = contents.held(alloc, name)? {
        made.put(name.to_string(alloc)?, bytes)?;
    }
    Ok(())
}

/// The names of the files that a run changed.
fn changed_by<C: Contents>(alloc: Global, stage: &Stage, contents: &C) -> io::Result<Vec<String>> {
    let mut changed = Vec::new(alloc);
    for file in stage.files.rows() {
        if !is_held(alloc, contents, file.name.as_str(), &file.bytes)? {
            changed.push(file.name.clone()?)?;
        }
    }
    Ok(changed)
}

/// Whether a file holds these bytes.
fn is_held<C: Contents>(alloc: Global, contents: &C, name: &str, bytes: &[u8]) -> io::Result<bool> {
    match contents.held(alloc, name)? {
        Some(held) => Ok(held.as_slice() == bytes),
        None => Ok(false),
    }
}
