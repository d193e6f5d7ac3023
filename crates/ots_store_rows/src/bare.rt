// The calls of a disk itself, before it is opened.
use crate::lines::{Line, split_word};
use crate::spelling::{bytes_of, number_of, spelled, split_number};
use crate::told;
use crate::transcript::Transcript;
use ots_base::OutOfMemory;
use ots_disk::{Disk, MemoryDisk};
use std::alloc::Global;

/// Makes calls of a disk, and tells what each answered.
pub fn call_each(
    alloc: Global,
    disk: &mut MemoryDisk,
    calls: &[Line],
    transcript: &mut Transcript,
) -> Result<(), OutOfMemory> {
    for line in calls {
        transcript.repeat(line)?;
        if !line.is_comment() {
            transcript.tell(&answer(alloc, disk, line.meant.as_str())?)?;
        }
    }
    Ok(())
}

/// Makes the call of a line, and says what it answered.
fn answer(alloc: Global, disk: &mut MemoryDisk, line: &str) -> Result<String, OutOfMemory> {
    let (word, rest) = split_word(line);
    match word {
        "write" => write(alloc, disk, rest),
        _ => answer_of_any(alloc, disk, word, rest),
    }
}

/// Writes bytes at a place within the file.
fn write(alloc: Global, disk: &mut MemoryDisk, rest: &str) -> Result<String, OutOfMemory> {
    let (place, rest) = split_number(rest);
    let piece = bytes_of(alloc, rest)?;
    if place > disk.bytes().len() as u64 {
        return told::words(alloc, "past the end");
    }
    told::done(alloc, disk.write_at(place, &piece).is_ok())
}

/// Makes a call that any disk takes.
fn answer_of_any<D: Disk>(
    alloc: Global,
    disk: &mut D,
    word: &str,
    rest: &str,
) -> Result<String, OutOfMemory> {
    match word {
        "length" => length(alloc, disk),
        "read" => read(alloc, disk, rest),
        "sync" => told::done(alloc, disk.sync().is_ok()),
        "faults" => Ok(disk.faults().to_string(alloc)?),
        _ => told::words(alloc, "no call"),
    }
}

fn length<D: Disk>(alloc: Global, disk: &mut D) -> Result<String, OutOfMemory> {
    match disk.len() {
        Ok(length) => Ok(length.to_string(alloc)?),
        Err(_) => told::done(alloc, false),
    }
}

/// Reads at most so many bytes from a place on.
fn read<D: Disk>(alloc: Global, disk: &mut D, rest: &str) -> Result<String, OutOfMemory> {
    let (place, count) = split_number(rest);
    let mut buf = Vec::new(alloc);
    buf.resize(number_of(count) as usize, b'-')?;
    match disk.read_at(place, &mut buf) {
        Ok(count) => spelled(alloc, &buf[..count]),
        Err(_) => told::done(alloc, false),
    }
}
