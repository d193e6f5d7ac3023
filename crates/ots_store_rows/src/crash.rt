// The images that a crash leaves, opened anew.
use crate::lines::{Form, split_word};
use crate::open::{open_journal, open_store};
use crate::spelling::{choice_of, spelled, split_number};
use crate::start::Start;
use crate::told;
use crate::transcript::Transcript;
use ots_base::OutOfMemory;
use ots_disk::{Choice, Disk, MemoryDisk};
use std::alloc::Global;

/// The kind and the bytes of the entry that an image takes as one more, and the bytes of the commitment.
const ENTRY: u8 = 9;

const COMMITMENT: u8 = 77;

/// Which images, and what they are opened as; without a form their bytes are told.
#[derive(Drop)]
struct Wanted {
    form: Option<Form>,
    from: u64,
    to: u64,
    choices: Vec<Choice>,
}

fn wanted_of(alloc: Global, text: &str) -> Result<Wanted, OutOfMemory> {
    let (word, rest) = split_word(text);
    let (from, rest) = split_number(rest);
    let (to, rest) = split_number(rest);
    let mut choices = Vec::new(alloc);
    for choice in rest.split(' ') {
        choices.push(choice_of(choice))?;
    }
    let form = match word {
        "store" => Some(Form::Store),
        "journal" => Some(Form::Journal),
        _ => None,
    };
    Ok(Wanted {
        form,
        from,
        to,
        choices,
    })
}

/// Tells of each call what a crash inside it leaves by each choice.
pub fn images(
    alloc: Global,
    made: &MemoryDisk,
    start: &Start,
    text: &str,
    transcript: &mut Transcript,
) -> Result<(), OutOfMemory> {
    let wanted = wanted_of(alloc, text)?;
    for moment in wanted.from..wanted.to {
        let found = at_moment(alloc, made, start, &wanted, moment)?;
        transcript.tell(&format!(in alloc; "{moment}: {found}")?)?;
    }
    Ok(())
}

/// What a crash inside a call leaves by each choice.
fn at_moment(
    alloc: Global,
    made: &MemoryDisk,
    start: &Start,
    wanted: &Wanted,
    moment: u64,
) -> Result<String, OutOfMemory> {
    let mut text = String::new(alloc);
    if moment < 1 || moment > made.calls().len() as u64 + 1 {
        return told::words(alloc, "no call");
    }
    for choice in &wanted.choices {
        if !text.is_empty() {
            text.push_str(", ")?;
        }
        let image = made.image(moment, *choice)?;
        text.push_str(&match wanted.form {
            Some(form) => opened(alloc, image.items(), start, form)?,
            None => spelled(alloc, image.items())?,
        })?;
    }
    Ok(text)
}

/// How many entries an image has, and how many with one more when it is opened once more.
fn opened(alloc: Global, image: &[u8], start: &Start, form: Form) -> Result<String, OutOfMemory> {
    let disk = MemoryDisk::new(alloc, image, start.room, &[])?;
    let (count, then) = match form {
        Form::Journal => journal_counts(alloc, disk, start.limit),
        Form::Store => store_counts(alloc, disk, start.limit),
    };
    let count = told::number(alloc, count)?;
    let then = told::number(alloc, then)?;
    Ok(format!(in alloc; "{count} then {then}")?)
}

/// The entries of a journal, and those with one more when it is opened once more.
fn journal_counts<D: Disk + Drop>(
    alloc: Global,
    disk: D,
    limit: u64,
) -> (Option<u64>, Option<u64>) {
    let Ok(mut journal) = open_journal(alloc, disk, limit) else {
        return (None, None);
    };
    let count = journal.count();
    if journal.append(ENTRY, &[ENTRY; 44]) != Ok(count) {
        return (Some(count), None);
    }
    (
        Some(count),
        journal_ending(alloc, journal.into_disk(), limit),
    )
}

/// The entries of a journal, where the last one is the one more.
fn journal_ending<D: Disk + Drop>(alloc: Global, disk: D, limit: u64) -> Option<u64> {
    let Ok(journal) = open_journal(alloc, disk, limit) else {
        return None;
    };
    let count = journal.count();
    if count == 0 || journal.entry(count - 1) != (ENTRY, [ENTRY; 44].as_slice()) {
        return None;
    }
    Some(count)
}

/// The records of a store, and those with one commitment more when it is opened once more.
fn store_counts<D: Disk + Drop>(alloc: Global, disk: D, limit: u64) -> (Option<u64>, Option<u64>) {
    let Ok(mut store) = open_store(alloc, disk, limit) else {
        return (None, None);
    };
    let count = store.entries();
    let commits = store.commits();
    if store.add_commit(&[COMMITMENT; 44]) != Ok(commits) {
        return (Some(count), None);
    }
    (Some(count), store_ending(alloc, store.into_disk(), limit))
}

/// The records of a store, where the last commitment is the one more.
fn store_ending<D: Disk + Drop>(alloc: Global, disk: D, limit: u64) -> Option<u64> {
    let Ok(store) = open_store(alloc, disk, limit) else {
        return None;
    };
    let commits = store.commits();
    if commits == 0 || store.commit(commits - 1) != [COMMITMENT; 44] {
        return None;
    }
    Some(store.entries())
}
