// How a script spells numbers, bytes and lists. Where memory runs out less comes of a text, and the
// transcript is another.
use crate::names::Names;
use hex::decode;
use sha2::{Digest, Sha256};
use std::alloc::Global;

/// The word before a text, and what stands after it.
pub fn split_word(text: &str) -> (&str, &str) {
    text.split_once(' ').unwrap_or((text, ""))
}

/// What stands before the first bar of a text, and what stands after it.
pub fn split_bar(text: &str) -> (&str, &str) {
    text.split_once(" | ").unwrap_or((text, ""))
}

/// The number of a word. One that is none counts as 0.
pub fn number_of(word: &str) -> u64 {
    word.parse::<u64>().unwrap_or(0)
}

/// The number before a text, and what stands after it.
pub fn split_number(text: &str) -> (u64, &str) {
    let (word, rest) = split_word(text);
    (number_of(word), rest)
}

/// The numbers of these words, of which `-` is none.
pub fn numbers_of(names: &Names, text: &str) -> Vec<usize> {
    let mut numbers = Vec::new(names.allocator());
    for word in text.split(' ') {
        if let Ok(number) = word.parse::<usize>() {
            let _ = numbers.push(number);
        }
    }
    numbers
}

/// The bytes of these words.
pub fn bytes_of(names: &Names, text: &str) -> Vec<u8> {
    let mut bytes = Vec::new(names.allocator());
    for word in text.split(' ') {
        let (part, times) = word.split_once('*').unwrap_or((word, "1"));
        if let Some(name) = part.strip_prefix('$') {
            push_times(&mut bytes, cut(names, name), number_of(times));
        } else if let Ok(digits) = decode(names.allocator(), part) {
            push_times(&mut bytes, &digits, number_of(times));
        }
    }
    bytes
}

/// The bytes of a name, or those between two places of them.
fn cut<'a>(names: &'a Names, word: &str) -> &'a [u8] {
    let (name, places) = word.split_once('[').unwrap_or((word, ".."));
    let bytes = names.bytes_of(name);
    let (from, to) = places
        .trim_end_matches(']')
        .split_once("..")
        .unwrap_or(("", ""));
    let to = to.parse::<usize>().unwrap_or(bytes.len());
    bytes.get(number_of(from) as usize..to).unwrap_or(&[])
}

/// Appends a part so many times.
fn push_times(bytes: &mut Vec<u8>, part: &[u8], times: u64) {
    for _ in 0..times {
        let _ = bytes.extend_from_slice(part);
    }
}

/// The first bytes of some, as many as the type says. Zeros where there are fewer.
pub fn array_of<const N: usize>(bytes: &[u8]) -> [u8; N] {
    let mut array = [0; N];
    if let Some(first) = bytes.get(..N) {
        array.copy_from_slice(first);
    }
    array
}

/// These bytes, cut into pieces as long as the type says.
pub fn arrays_of<const N: usize>(alloc: Global, bytes: &[u8]) -> Vec<[u8; N]> {
    let mut arrays = Vec::new(alloc);
    for piece in bytes.chunks(N.max(1)) {
        let _ = arrays.push(array_of::<N>(piece));
    }
    arrays
}

/// As many hashes as the first word says, each SHA-256 of the one before twice side by side.
pub fn hash_chain(names: &Names, text: &str) -> Vec<u8> {
    let (count, words) = split_number(text);
    let mut hash: [u8; 32] = array_of(&bytes_of(names, words));
    let mut hashes = Vec::new(names.allocator());
    for _ in 0..count {
        let mut hasher = Sha256::new();
        hasher.update(&hash);
        hasher.update(&hash);
        hash = hasher.finalize();
        let _ = hashes.extend_from_slice(&hash);
    }
    hashes
}
