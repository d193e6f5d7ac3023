// A run of the client over objects in memory, or over real files.
use crate::call::call;
use crate::left::{Ended, Folder, Left, left_by};
use crate::stage::Stage;
use ots_io::{
    BytesSink, Dialer, DialerRoom, DirShelf, ListNonces, MapShelf, Nonces, ScriptDialer, Shelf,
    ShelfRoom,
};
use ots_row_words::{Row, Table};
use std::alloc::{AllocError, Global};
use std::rt::Files;
use std::{fs, io};

/// How many bytes may be printed.
const TEXT: usize = 32_768;

/// How often a file may be opened or made.
const SLOTS: u32 = 2048;

/// How much longer a file that is made may be than the longest that was there.
const MORE_BYTES: usize = 1024;

/// A conversation with each of the most calendars that a list may have.
const CALENDARS: DialerRoom = DialerRoom {
    conversations: 16,
    host_length: 64,
    bytes: 1024,
};

/// A run of these words on that, with the files in memory.
pub fn run_in_memory(alloc: Global, words: &[String], stage: &Stage) -> io::Result<Left> {
    let mut shelf = shelf_of(alloc, words, stage)?;
    let ended = run_over(alloc, words, stage, &mut shelf)?;
    left_by(alloc, words, stage, &shelf, ended)
}

/// A run of these words on that, with real files in the folder where this program runs. They are there only while the
/// run lasts, and no call of them is made to fail.
pub fn run_on_files(
    rt: &(impl Files + AllocGlobal),
    words: &[String],
    stage: &Stage,
) -> io::Result<Left> {
    let alloc = rt.alloc();
    for file in stage.files.rows() {
        fs::write(rt, file.name.as_str(), file.bytes.as_slice())?;
    }
    let ended = run_over(alloc, words, stage, &mut DirShelf::new(rt, alloc))?;
    let left = left_by(alloc, words, stage, &Folder { rt }, ended)?;
    remove_all(rt, stage.files.rows())?;
    remove_all(rt, left.made.rows())?;
    Ok(left)
}

/// Removes these files.
fn remove_all(rt: &impl Files, files: &[Row]) -> io::Result<()> {
    for file in files {
        fs::remove_file(rt, file.name.as_str())?;
    }
    Ok(())
}

/// A run of these words over any shelf. Each object in memory is made in a function of its own, over any others, so
/// that no function is proved with the clauses of two of them at hand.
fn run_over<S: Shelf>(
    alloc: Global,
    words: &[String],
    stage: &Stage,
    shelf: &mut S,
) -> Result<Ended, AllocError> {
    let mut nonces = nonces_of(alloc, stage)?;
    run_drawing(alloc, words, stage, shelf, &mut nonces)
}

/// The same with these nonces.
fn run_drawing<S: Shelf, N: Nonces>(
    alloc: Global,
    words: &[String],
    stage: &Stage,
    shelf: &mut S,
    nonces: &mut N,
) -> Result<Ended, AllocError> {
    let mut dialer = dialer_of(alloc, stage)?;
    let (number, text) = run_asking(alloc, words, stage, shelf, &mut dialer, nonces)?;
    Ok(Ended {
        number,
        text,
        asked: asked_by(alloc, &dialer)?,
    })
}

/// The number and the text of a run with this dialer too.
fn run_asking<S: Shelf, D: Dialer, N: Nonces>(
    alloc: Global,
    words: &[String],
    stage: &Stage,
    shelf: &mut S,
    dialer: &mut D,
    nonces: &mut N,
) -> Result<(u8, Vec<u8>), AllocError> {
    let mut out = sink_of(alloc, stage)?;
    let number = call(alloc, words, shelf, &mut out, dialer, nonces);
    Ok((number, out.bytes().to_vec(alloc)?))
}

/// The shelf of a run.
fn shelf_of(alloc: Global, words: &[String], stage: &Stage) -> Result<MapShelf, AllocError> {
    let room = room_of(words, stage.files.rows());
    let Ok(mut shelf) = MapShelf::new(alloc, room, &stage.failing.shelf) else {
        return Err(AllocError);
    };
    for file in stage.files.rows() {
        if shelf.put(file.name.as_str(), &file.bytes).is_err() {
            return Err(AllocError);
        }
    }
    Ok(shelf)
}

/// Room for these files, and for one that is made for each word.
fn room_of(words: &[String], files: &[Row]) -> ShelfRoom {
    let mut name_length = 0;
    let mut bytes = 0;
    for word in words {
        name_length = word.len().max(name_length);
    }
    for file in files {
        name_length = file.name.len().max(name_length);
        bytes = file.bytes.len().max(bytes);
    }
    ShelfRoom {
        names: files.len().saturating_add(words.len()),
        name_length: name_length.saturating_add(".ots".len()),
        bytes: bytes.saturating_add(MORE_BYTES),
        slots: SLOTS,
    }
}

/// The sink of a run.
fn sink_of(alloc: Global, stage: &Stage) -> Result<BytesSink, AllocError> {
    match BytesSink::new(alloc, TEXT, &stage.failing.sink) {
        Ok(sink) => Ok(sink),
        Err(_) => Err(AllocError),
    }
}

/// The dialer of a run.
fn dialer_of(alloc: Global, stage: &Stage) -> Result<ScriptDialer, AllocError> {
    let mut replies = Vec::new(alloc);
    for reply in stage.replies.rows() {
        replies.push(reply.bytes.as_slice())?;
    }
    match ScriptDialer::new(alloc, &replies, CALENDARS, &stage.failing.dialer) {
        Ok(dialer) => Ok(dialer),
        Err(_) => Err(AllocError),
    }
}

/// The nonces of a run.
fn nonces_of(alloc: Global, stage: &Stage) -> Result<ListNonces, AllocError> {
    match ListNonces::new(alloc, &stage.nonces, &stage.failing.draws) {
        Ok(nonces) => Ok(nonces),
        Err(_) => Err(AllocError),
    }
}

/// What was sent in each conversation, by host and port.
fn asked_by(alloc: Global, dialer: &ScriptDialer) -> Result<Table, AllocError> {
    let mut asked = Table::new(alloc);
    for place in 0..CALENDARS.conversations as usize {
        if let Some(sent) = dialer.sent(place) {
            let (host, port) = (sent.host, sent.port);
            asked.add(
                format!(in alloc; "{host}:{port}")?,
                sent.bytes.to_vec(alloc)?,
            )?;
        }
    }
    Ok(asked)
}
