// How a script spells numbers, bytes and lists. Where memory runs out less comes of a text, and the
// transcript is another.
use crate::names::Names;
use hex::decode;

/// The word before a text, and what stands after it.
pub fn split_word(text: &str) -> (&str, &str) {
    text.split_once(' ').unwrap_or((text, ""))
}

/// What stands before the first bar of a text, and what stands after it.
pub fn split_bar(text: &str) -> (&str, &str) {
    text.split_once(" | ").unwrap_or((text, ""))
}

/// The number of a word. One that is none counts as 0.
pub fn number_of(word: &str) -> u64 {
    word.parse::<u64>().unwrap_or(0)
}

/// The number before a text, and what stands after it.
pub fn split_number(text: &str) -> (u64, &str) {
    let (word, rest) = split_word(text);
    (number_of(word), rest)
}

/// A word, and how often it stands: `xx*N` stands N times.
pub fn split_times(word: &str) -> (&str, u64) {
    match word.split_once('*') {
        Some((word, times)) => (word, number_of(times)),
        None => (word, 1),
    }
}

/// The bytes of these words.
pub fn bytes_of(names: &Names, text: &str) -> Vec<u8> {
    let mut bytes = Vec::new(names.allocator());
    for word in text.split(' ') {
        push_word(names, word, &mut bytes);
    }
    bytes
}

/// Appends the bytes of a word: of a name, of a text in quotes or of hexadecimal digits.
fn push_word(names: &Names, word: &str, bytes: &mut Vec<u8>) {
    let (part, times) = split_times(word);
    if let Some(named) = names.bytes_of(part) {
        push_times(bytes, named, times);
    } else if let Some(text) = part.strip_prefix('"') {
        push_times(bytes, text.trim_end_matches('"').as_bytes(), times);
    } else if let Ok(digits) = decode(names.allocator(), part) {
        push_times(bytes, &digits, times);
    }
}

/// Appends a part so many times.
fn push_times(bytes: &mut Vec<u8>, part: &[u8], times: u64) {
    for _ in 0..times {
        let _ = bytes.extend_from_slice(part);
    }
}

/// The numbers of these words, of which `-` is none.
pub fn numbers_of(names: &Names, text: &str) -> Vec<u64> {
    let mut numbers = Vec::new(names.allocator());
    for word in text.split(' ') {
        if let Ok(number) = word.parse::<u64>() {
            let _ = numbers.push(number);
        }
    }
    numbers
}

/// The counts of these words, of which `-` is none.
pub fn counts_of(names: &Names, text: &str) -> Vec<usize> {
    let mut counts = Vec::new(names.allocator());
    for word in text.split(' ') {
        if let Ok(count) = word.parse::<usize>() {
            let _ = counts.push(count);
        }
    }
    counts
}

/// The bytes of these words for each number from the first to the last, up or down. `@4` is the number in
/// four bytes, `@3` the varuint of 2^20 and the number, and `@d` four digits.
pub fn numbered(names: &Names, first: u64, last: u64, text: &str) -> Vec<u8> {
    let mut bytes = Vec::new(names.allocator());
    for i in 0..=first.abs_diff(last) {
        let number = if first > last {
            first.saturating_sub(i)
        } else {
            first.saturating_add(i)
        };
        push_numbered(names, number, text, &mut bytes);
    }
    bytes
}

/// Appends the bytes of these words for a number.
fn push_numbered(names: &Names, number: u64, text: &str, bytes: &mut Vec<u8>) {
    for word in text.split(' ') {
        match word {
            "@4" => push_times(bytes, &((number % 4_294_967_296) as u32).to_be_bytes(), 1),
            "@3" => push_times(bytes, &height(number), 1),
            "@d" => push_times(bytes, &digits(number), 1),
            _ => push_word(names, word, bytes),
        }
    }
}

/// A height in three bytes, with 2^20 added.
fn height(number: u64) -> [u8; 3] {
    [
        128 + (number % 128) as u8,
        128 + (number / 128 % 128) as u8,
        64 + (number / 16_384 % 64) as u8,
    ]
}

/// The last four digits of a number.
fn digits(number: u64) -> [u8; 4] {
    [
        b'0' + (number / 1000 % 10) as u8,
        b'0' + (number / 100 % 10) as u8,
        b'0' + (number / 10 % 10) as u8,
        b'0' + (number % 10) as u8,
    ]
}
