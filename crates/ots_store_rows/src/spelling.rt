// How a script spells numbers, bytes and entries.
use hex::{decode, encode};
use ots_base::OutOfMemory;
use ots_disk::Choice;
use ots_journal::Entry;
use ots_outside::Bytes;
use std::alloc::Global;

/// The number of a word. One that is none counts as 0.
pub fn number_of(word: &str) -> u64 {
    word.parse::<u64>().unwrap_or(0)
}

/// The number in prefix, and the words after it.
pub fn split_number(text: &str) -> (u64, &str) {
    let (word, rest) = text.split_once(' ').unwrap_or((text, ""));
    (number_of(word), rest)
}

/// The numbers of these words.
pub fn numbers_of(alloc: Global, text: &str) -> Result<Vec<u64>, OutOfMemory> {
    let mut numbers = Vec::new(alloc);
    for word in text.split(' ') {
        numbers.push(number_of(word))?;
    }
    Ok(numbers)
}

/// The bytes of these words: hexadecimal digits, or `xx*n` for a byte that stands n times. A word of
/// neither form stands for no byte.
pub fn bytes_of(alloc: Global, text: &str) -> Result<Vec<u8>, OutOfMemory> {
    let mut bytes = Vec::new(alloc);
    for word in text.split(' ') {
        let (digits, count) = word.split_once('*').unwrap_or((word, "1"));
        if let Ok(part) = decode(alloc, digits) {
            push_times(&mut bytes, part.as_slice(), number_of(count))?;
        }
    }
    Ok(bytes)
}

/// Appends a part so many times.
fn push_times(bytes: &mut Vec<u8>, part: &[u8], count: u64) -> Result<(), OutOfMemory> {
    for _ in 0..count {
        bytes.extend_from_slice(part)?;
    }
    Ok(())
}

/// The entry of a kind and bytes.
pub fn entry_of(alloc: Global, text: &str) -> Result<Entry, OutOfMemory> {
    let (kind, rest) = text.split_once(' ').unwrap_or((text, ""));
    Ok(Entry {
        kind: kind.parse::<u8>().unwrap_or(0),
        payload: Bytes::from_vec(bytes_of(alloc, rest)?),
    })
}

/// The entries between semicolons.
pub fn entries_of(alloc: Global, text: &str) -> Result<Vec<Entry>, OutOfMemory> {
    let mut entries = Vec::new(alloc);
    if text.is_empty() {
        return Ok(entries);
    }
    for part in text.split(';') {
        entries.push(entry_of(alloc, part.trim())?)?;
    }
    Ok(entries)
}

/// What a crash makes of a write: a word, or the byte that fills it.
pub fn choice_of(word: &str) -> Choice {
    match word {
        "dropped" => Choice::Dropped,
        "kept" => Choice::Kept,
        digits => Choice::Fill(u8::from_str_radix(digits, 16).unwrap_or(0)),
    }
}

/// The bytes as a script spells them, and `-` for none.
pub fn spelled(alloc: Global, bytes: &[u8]) -> Result<String, OutOfMemory> {
    match bytes {
        [] => Ok("-".to_string(alloc)?),
        [first, rest @ ..] if !rest.is_empty() && rest.iter().all(|byte| *byte == *first) => {
            let count = bytes.len();
            Ok(format!(in alloc; "{first:02x}*{count}")?)
        }
        _ => Ok(encode(alloc, bytes)?),
    }
}

/// Numbers in order, `-` where there is none, with `*n` after one that stands n times.
pub fn spelled_numbers(alloc: Global, numbers: &[Option<u64>]) -> Result<String, OutOfMemory> {
    let mut text = String::new(alloc);
    let mut last = None;
    let mut count = 0u64;
    for number in numbers {
        if count > 0 && *number == last {
            count = count.saturating_add(1);
        } else {
            push_number(alloc, &mut text, last, count)?;
            last = *number;
            count = 1;
        }
    }
    push_number(alloc, &mut text, last, count)?;
    Ok(text)
}

/// Appends a number that stands so many times.
fn push_number(
    alloc: Global,
    text: &mut String,
    number: Option<u64>,
    count: u64,
) -> Result<(), OutOfMemory> {
    if count == 0 {
        return Ok(());
    }
    if !text.is_empty() {
        text.push_str(" ")?;
    }
    match number {
        Some(number) => text.push_str(&number.to_string(alloc)?)?,
        None => text.push_str("-")?,
    }
    if count > 1 {
        text.push_str(&format!(in alloc; "*{count}")?)?;
    }
    Ok(())
}
