// Headers, their hashes, and tables of them.
//
// | line | its answer |
// |---|---|
// | `header of BYTES` | the fields of these 80 bytes, the bytes of the fields, and the hash as it is usually shown |
// | `header double BYTES` | SHA-256 twice |
// | `header table HEIGHT \| CUTS \| N \| HEIGHTS \| BYTES` | the first height of a table, its count, these headers |
// | `header zeros N \| HEIGHT \| HEIGHTS` | the same of so many zeros, and how many of them were not read |
//
// HEIGHT is that of the first header. The reads of the source are cut so, and the read N fails, where it is not 0.
use crate::names::Names;
use crate::said::Said;
use crate::words::{array_of, bytes_of, number_of, numbers_of, split_bar, split_word};
use crate::zeros::Zeros;
use ots_bitcoin::{Header, Headers, HeadersError, block_hash, double_sha256};
use ots_io::{BytesSource, Source};
use std::alloc::Global;

/// The greatest height of the first header of a table.
const MOST_FIRST: u64 = 9_223_372_036_854_775_807;

/// The most bytes that are hashed here.
const MOST: usize = 4096;

/// Answers a question about headers.
pub fn answer(names: &Names, text: &str, said: &mut Said) {
    let (word, rest) = split_word(text);
    match word {
        "of" => of(&array_of(&bytes_of(names, rest)), said),
        "double" => double(&bytes_of(names, rest), said),
        "table" => table(names, rest, said),
        _ => zeros(names, rest, said),
    }
}

fn of(bytes: &[u8; 80], said: &mut Said) {
    let header = Header::from_bytes(bytes);
    say_header(&header, said);
    said.bytes(&header.to_bytes());
    let mut hash = block_hash(bytes);
    hash.reverse();
    said.bytes(&hash);
}

/// Says the fields of a header, in order.
fn say_header(header: &Header, said: &mut Said) {
    said.number(u64::from(header.version));
    said.bytes(&header.previous);
    said.bytes(&header.root);
    said.number(u64::from(header.time));
    said.number(u64::from(header.bits));
    said.number(u64::from(header.nonce));
}

fn double(bytes: &[u8], said: &mut Said) {
    if bytes.len() <= MOST {
        said.bytes(&double_sha256(bytes));
    }
}

fn table(names: &Names, text: &str, said: &mut Said) {
    let alloc = names.allocator();
    let (first, rest) = split_bar(text);
    let first = number_of(first);
    let (cuts, rest) = split_bar(rest);
    let (failing, rest) = split_bar(rest);
    let (heights, words) = split_bar(rest);
    let bytes = bytes_of(names, words);
    let cuts = numbers_of(names, cuts);
    let heights = numbers_of(names, heights);
    let failing = [number_of(failing)];
    if let Ok(mut source) = BytesSource::new(alloc, &bytes, &cuts, &failing) {
        say_table(alloc, first, &heights, &mut source, said);
    }
}

fn zeros(names: &Names, text: &str, said: &mut Said) {
    let (count, rest) = split_bar(text);
    let (first, heights) = split_bar(rest);
    let first = number_of(first);
    let heights = numbers_of(names, heights);
    let mut source = Zeros::new(number_of(count));
    say_table(names.allocator(), first, &heights, &mut source, said);
    said.number(source.left());
}

/// Says what a table of a source has, or why it is none.
fn say_table<S: Source>(
    alloc: Global,
    first: u64,
    heights: &[usize],
    source: &mut S,
    said: &mut Said,
) {
    match Headers::read(alloc, first.min(MOST_FIRST), source) {
        Ok(table) => {
            said.number(table.first());
            said.number(table.count());
            say_heights(&table, heights, said);
        }
        Err(HeadersError::ReadFault) => said.word("read fault"),
        Err(HeadersError::BadHeaders(length)) => {
            said.word("bad headers");
            said.number(length);
        }
        Err(HeadersError::OutOfMemory) => said.word("out of memory"),
    }
}

/// Says the header of each of these heights.
fn say_heights(table: &Headers, heights: &[usize], said: &mut Said) {
    for height in heights {
        match table.at(*height as u64) {
            Some(header) => say_header(&header, said),
            None => said.word("none"),
        }
    }
}
