// How a script spells bytes, numbers and words.
use hex::decode;
use ots_io::OutOfMemory;
use std::alloc::Global;
use std::collections::BTreeMap;

/// The bytes that have names.
pub type Names = BTreeMap<String, Vec<u8>>;

/// The bytes of these words. A word of no form, or of a name that is not there, stands for no byte.
pub fn bytes_of(alloc: Global, names: &Names, text: &str) -> Result<Vec<u8>, OutOfMemory> {
    let mut bytes = Vec::new(alloc);
    for word in text.split(' ') {
        let (part, count) = word.split_once('*').unwrap_or((word, "1"));
        let part = part_of(alloc, names, part)?;
        push_times(&mut bytes, &part, count.parse::<u32>().unwrap_or(0))?;
    }
    Ok(bytes)
}

/// The bytes of a name after a dollar sign, or of hexadecimal digits.
fn part_of(alloc: Global, names: &Names, part: &str) -> Result<Vec<u8>, OutOfMemory> {
    match part.strip_prefix('$') {
        Some(name) => match names.get(name) {
            Some(bytes) => Ok(bytes.as_slice().to_vec(alloc)?),
            None => Ok(Vec::new(alloc)),
        },
        None => match decode(alloc, part) {
            Ok(bytes) => Ok(bytes),
            Err(_) => Ok(Vec::new(alloc)),
        },
    }
}

/// Appends a part so many times.
fn push_times(bytes: &mut Vec<u8>, part: &[u8], count: u32) -> Result<(), OutOfMemory> {
    for _ in 0..count {
        bytes.extend_from_slice(part)?;
    }
    Ok(())
}

/// The bytes of a text, in which a backslash stands before the letters of the ends of lines.
pub fn text_of(alloc: Global, text: &str) -> Result<Vec<u8>, OutOfMemory> {
    let mut bytes = Vec::new(alloc);
    let mut is_after_backslash = false;
    for byte in text.as_bytes() {
        if is_after_backslash {
            bytes.push(end_of_line(*byte))?;
            is_after_backslash = false;
        } else if *byte == b'\\' {
            is_after_backslash = true;
        } else {
            bytes.push(*byte)?;
        }
    }
    Ok(bytes)
}

/// What a letter after a backslash stands for.
fn end_of_line(letter: u8) -> u8 {
    match letter {
        b'n' => b'\n',
        b'r' => b'\r',
        other => other,
    }
}

/// The numbers of these words. One that is none counts as 0.
pub fn numbers_of(alloc: Global, text: &str) -> Result<Vec<u64>, OutOfMemory> {
    let mut numbers = Vec::new(alloc);
    for word in text.split(' ') {
        numbers.push(number_of(word))?;
    }
    Ok(numbers)
}

/// The number of a word, or 0.
pub fn number_of(word: &str) -> u64 {
    word.parse::<u64>().unwrap_or(0)
}

/// The words of a command; `''` stands for the empty one.
pub fn words_of(alloc: Global, text: &str) -> Result<Vec<String>, OutOfMemory> {
    let mut words = Vec::new(alloc);
    for word in text.split(' ') {
        if word == "''" {
            words.push(String::new(alloc))?;
        } else if !word.is_empty() {
            words.push(word.to_string(alloc)?)?;
        }
    }
    Ok(words)
}
