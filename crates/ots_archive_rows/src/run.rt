// A run of the archive over objects in memory.
use crate::call::call;
use crate::stage::Stage;
use ots_archive_world::Handed;
use ots_io::{BytesSink, ListNonces, MapShelf, Nonces, ShelfRoom, Sink};
use ots_row_words::{Row, Table};
use std::alloc::{AllocError, Global};

/// How many bytes may be printed.
const TEXT: usize = 32_768;

/// How often a file may be opened or made.
const SLOTS: u32 = 512;

/// How much longer a file that is made may be than the longest that was there.
const MORE_BYTES: usize = 8192;

/// What a run leaves: the number that it ends with, what it printed, and the files that it made.
#[derive(Drop)]
pub struct Left {
    pub number: u8,
    pub text: Vec<u8>,
    pub made: Table,
}

impl Left {
    /// What is left where nothing was run.
    pub fn nothing(alloc: Global) -> Left {
        Left {
            number: 0,
            text: Vec::new(alloc),
            made: Table::new(alloc),
        }
    }
}

/// A run of these words on that. Each object in memory is made in a function of its own, so that no function is proved
/// with the clauses of two of them at hand.
pub fn run_on(alloc: Global, words: &[String], stage: &Stage) -> Result<Left, AllocError> {
    let mut world = Handed {
        shelf: shelf_of(alloc, stage)?,
        out: sink_of(alloc, stage)?,
        nonces: nonces_of(alloc, stage)?,
    };
    let number = call(alloc, words, &mut world);
    Ok(Left {
        number,
        text: world.out.bytes().to_vec(alloc)?,
        made: made_on(alloc, stage, &world.shelf)?,
    })
}

/// The shelf of a run.
fn shelf_of(alloc: Global, stage: &Stage) -> Result<MapShelf, AllocError> {
    let Ok(mut shelf) = MapShelf::new(alloc, room_of(stage), &stage.failing.shelf) else {
        return Err(AllocError);
    };
    for file in stage.files.rows() {
        if shelf.put(file.name.as_str(), &file.bytes).is_err() {
            return Err(AllocError);
        }
    }
    Ok(shelf)
}

/// Room for the files, and for those that may be made.
fn room_of(stage: &Stage) -> ShelfRoom {
    let files = stage.files.rows();
    ShelfRoom {
        names: files.len().saturating_add(stage.outputs.len()),
        name_length: longest_name(files).max(longest(&stage.outputs)),
        bytes: longest_file(files).saturating_add(MORE_BYTES),
        slots: SLOTS,
    }
}

/// The length of the longest name of these files.
fn longest_name(files: &[Row]) -> usize {
    let mut length = 0;
    for file in files {
        length = file.name.len().max(length);
    }
    length
}

/// The length of the longest of these files.
fn longest_file(files: &[Row]) -> usize {
    let mut length = 0;
    for file in files {
        length = file.bytes.len().max(length);
    }
    length
}

/// The length of the longest of these names.
fn longest(names: &[String]) -> usize {
    let mut length = 0;
    for name in names {
        length = name.len().max(length);
    }
    length
}

/// The sink of a run.
fn sink_of(alloc: Global, stage: &Stage) -> Result<BytesSink, AllocError> {
    match BytesSink::new(alloc, TEXT, &stage.failing.sink) {
        Ok(sink) => Ok(sink),
        Err(_) => Err(AllocError),
    }
}

/// The nonces of a run.
fn nonces_of(alloc: Global, stage: &Stage) -> Result<ListNonces, AllocError> {
    match ListNonces::new(alloc, &stage.nonces, &stage.failing.draws) {
        Ok(nonces) => Ok(nonces),
        Err(_) => Err(AllocError),
    }
}

/// The outputs that were not there before a run and are on this shelf.
fn made_on(alloc: Global, stage: &Stage, shelf: &MapShelf) -> Result<Table, AllocError> {
    let mut made = Table::new(alloc);
    for name in &stage.outputs {
        if stage.files.get(name.as_str()).is_none() {
            put_made(alloc, name.as_str(), shelf, &mut made)?;
        }
    }
    Ok(made)
}

/// Puts what there is under a name, if anything.
fn put_made(
    alloc: Global,
    name: &str,
    shelf: &MapShelf,
    made: &mut Table,
) -> Result<(), AllocError> {
    if let Some(bytes) = shelf.bytes_of(name) {
        made.put(name.to_string(alloc)?, bytes.to_vec(alloc)?)?;
    }
    Ok(())
}
