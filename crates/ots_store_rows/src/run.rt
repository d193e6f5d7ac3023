// The openings of any disk, and the calls after each. What holds a journal or a store stays in these
// functions and those below them, which give texts back.
use crate::lines::{Form, Line, Opening};
use crate::open::{Unopened, open_journal, open_store};
use crate::transcript::Transcript;
use crate::{journal, store, told};
use ots_base::OutOfMemory;
use ots_disk::Disk;
use std::alloc::Global;

/// Opens a disk again and again, makes the calls after each opening, and hands the disk back.
pub fn run<D: Disk + Drop>(
    alloc: Global,
    disk: D,
    limit: u64,
    openings: &[Opening],
    transcript: &mut Transcript,
) -> Result<D, OutOfMemory> {
    let mut disk = disk;
    for opening in openings {
        transcript.repeat(&opening.line)?;
        let calls = opening.calls.as_slice();
        disk = match opening.form {
            Form::Journal => run_journal(alloc, disk, limit, calls, transcript)?,
            Form::Store => run_store(alloc, disk, limit, calls, transcript)?,
        };
    }
    Ok(disk)
}

/// Makes calls of the journal on a disk.
fn run_journal<D: Disk + Drop>(
    alloc: Global,
    disk: D,
    limit: u64,
    calls: &[Line],
    transcript: &mut Transcript,
) -> Result<D, OutOfMemory> {
    let mut opened = match open_journal(alloc, disk, limit) {
        Ok(opened) => opened,
        Err(unopened) => return refuse(alloc, unopened, transcript),
    };
    transcript.tell(&journal::state(alloc, &opened)?)?;
    for line in calls {
        transcript.repeat(line)?;
        if !line.is_comment() {
            transcript.tell(&journal::answer(alloc, &mut opened, line.meant.as_str())?)?;
        }
    }
    Ok(opened.into_disk())
}

/// The same of the store on a disk.
fn run_store<D: Disk + Drop>(
    alloc: Global,
    disk: D,
    limit: u64,
    calls: &[Line],
    transcript: &mut Transcript,
) -> Result<D, OutOfMemory> {
    let mut opened = match open_store(alloc, disk, limit) {
        Ok(opened) => opened,
        Err(unopened) => return refuse(alloc, unopened, transcript),
    };
    transcript.tell(&store::state(alloc, &opened)?)?;
    for line in calls {
        transcript.repeat(line)?;
        if !line.is_comment() {
            transcript.tell(&store::answer(alloc, &mut opened, line.meant.as_str())?)?;
        }
    }
    Ok(opened.into_disk())
}

/// Tells why a disk was not opened, and how often it has failed.
fn refuse<D: Disk + Drop>(
    alloc: Global,
    unopened: Unopened<D>,
    transcript: &mut Transcript,
) -> Result<D, OutOfMemory> {
    let Unopened { disk, why } = unopened;
    let why = told::not_opened(alloc, why)?;
    let faults = disk.faults();
    transcript.tell(&format!(in alloc; "{why}, faults {faults}")?)?;
    Ok(disk)
}
