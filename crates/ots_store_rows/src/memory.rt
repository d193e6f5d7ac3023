// A disk in memory, what is done on it, and what is asked of it afterwards.
use crate::bare::call_each;
use crate::crash::images;
use crate::lines::{Line, Opening, split_word};
use crate::run::run;
use crate::spelling::{bytes_of, number_of, spelled};
use crate::start::Start;
use crate::transcript::Transcript;
use ots_base::OutOfMemory;
use ots_disk::{DiskCall, MadeCall, MemoryDisk};
use std::alloc::Global;

/// Makes the disk, makes calls of it, opens it as the openings say, and answers the questions.
pub fn run_on(
    alloc: Global,
    start: &Start,
    calls: &[Line],
    openings: &[Opening],
    questions: &[Line],
) -> Result<Transcript, OutOfMemory> {
    let mut transcript = Transcript::new(alloc);
    let mut disk = MemoryDisk::new(alloc, &start.bytes, start.room, &start.failing)?;
    call_each(alloc, &mut disk, calls, &mut transcript)?;
    let made = run(alloc, disk, start.limit, openings, &mut transcript)?;
    answer_each(alloc, &made, start, questions, &mut transcript)?;
    Ok(transcript)
}

/// Answers each question.
fn answer_each(
    alloc: Global,
    made: &MemoryDisk,
    start: &Start,
    questions: &[Line],
    transcript: &mut Transcript,
) -> Result<(), OutOfMemory> {
    for question in questions {
        transcript.repeat(question)?;
        answer(alloc, made, start, question.meant.as_str(), transcript)?;
    }
    Ok(())
}

/// Answers a question.
fn answer(
    alloc: Global,
    made: &MemoryDisk,
    start: &Start,
    question: &str,
    transcript: &mut Transcript,
) -> Result<(), OutOfMemory> {
    let (word, rest) = split_word(question);
    match word {
        "left" => compare(alloc, made.bytes(), &bytes_of(alloc, rest)?, transcript),
        "calls" => list(alloc, made.calls(), number_of(rest), transcript),
        "images" => images(alloc, made, start, rest, transcript),
        _ => Ok(()),
    }
}

/// Tells whether the disk holds these bytes, and what it holds if not.
fn compare(
    alloc: Global,
    bytes: &[u8],
    wanted: &[u8],
    transcript: &mut Transcript,
) -> Result<(), OutOfMemory> {
    if bytes != wanted {
        let held = spelled(alloc, bytes)?;
        return transcript.tell(&format!(in alloc; "no: {held}")?);
    }
    let length = bytes.len();
    transcript.tell(&format!(in alloc; "so it is, {length} bytes")?)
}

/// Tells the calls from a number on, of which the first is 1.
fn list(
    alloc: Global,
    calls: &[MadeCall],
    from: u64,
    transcript: &mut Transcript,
) -> Result<(), OutOfMemory> {
    let mut number = 0u64;
    for made in calls {
        number = number.saturating_add(1);
        if number >= from {
            let call = call(alloc, made)?;
            transcript.tell(&format!(in alloc; "{number}: {call}")?)?;
        }
    }
    Ok(())
}

/// A call, and whether it failed.
fn call(alloc: Global, made: &MadeCall) -> Result<String, OutOfMemory> {
    let mut text = match &made.call {
        DiskCall::Length => "length".to_string(alloc)?,
        DiskCall::Read => "read".to_string(alloc)?,
        DiskCall::Sync => "sync".to_string(alloc)?,
        DiskCall::Write(place, piece) => {
            let count = piece.items().len();
            let bytes = spelled(alloc, piece.items())?;
            format!(in alloc; "write {place}, {count} bytes: {bytes}")?
        }
    };
    if made.failed {
        text.push_str(", failed")?;
    }
    Ok(text)
}
