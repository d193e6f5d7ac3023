// Proof files.
//
// | line | its answer |
// |---|---|
// | `file read BYTES` | the file that these bytes are: its hash, its length, and whether it is written as it was read |
// | `file cuts BYTES` | the same of each prefix, whole, and from a source that gives one byte at a time |
// | `file source CUTS \| FAILS \| BYTES` | the same from a source that is cut so, where these reads fail |
// | `file write FAILS \| BYTES` | what a sink takes of it, where these writes fail |
// | `file hash HASH LIMIT CUTS \| FAILS \| BYTES` | the digest of what such a source gives, within a limit |
use crate::hashes::{hash_of, say_digest, word_of};
use crate::names::Names;
use crate::readers::say_fault;
use crate::runs::Runs;
use crate::words::{bytes_of, counts_of, numbers_of, split_bar, split_number, split_word};
use ots_detached::{
    FileError, HashError, file_length, hash_source, read_bytes, read_file, write_file,
};
use ots_io::{BytesSink, BytesSource, Sink, Source};
use ots_ops::{Digest, HashOp};
use ots_row_words::Said;
use ots_tree::Detached;
use std::alloc::Global;

/// The greatest limit of a file that is hashed: 2^40 bytes.
const GREATEST: u64 = 1_099_511_627_776;

/// Answers a question about proof files.
pub fn answer(names: &Names, text: &str, said: &mut Said) {
    let (word, rest) = split_word(text);
    match word {
        "read" => whole(names.allocator(), &bytes_of(names, rest), said),
        "cuts" => cuts(names.allocator(), &bytes_of(names, rest), said),
        "source" => source(names, rest, said),
        "write" => write(names, rest, said),
        _ => hash(names, rest, said),
    }
}

/// Says the file that these bytes are.
pub fn whole(alloc: Global, bytes: &[u8], said: &mut Said) {
    say_file(alloc, read_bytes(alloc, bytes), bytes, said);
}

/// Says a file, and whether it is written as these bytes.
fn say_file(alloc: Global, file: Result<Detached, FileError>, bytes: &[u8], said: &mut Said) {
    match file {
        Ok(proof) => {
            said.word(word_of(proof.hash));
            said.number(file_length(&proof));
            let (taken, is_whole) = written(alloc, &proof, &[]);
            said.whether(is_whole && taken.as_slice() == bytes);
        }
        Err(error) => say_error(error, said),
    }
}

/// Says why there is no proof.
fn say_error(error: FileError, said: &mut Said) {
    match error {
        FileError::ReadFault => said.word("read fault"),
        FileError::TooBig => said.word("too big"),
        FileError::BadProof(fault) => say_fault(fault, said),
        FileError::OutOfMemory => said.word("out of memory"),
    }
}

/// What a sink takes of a proof, where these writes fail, and whether it takes all.
fn written(alloc: Global, proof: &Detached, failing: &[u64]) -> (Vec<u8>, bool) {
    match BytesSink::new(alloc, file_length(proof) as usize, failing) {
        Ok(mut sink) => {
            let is_whole = write_to(proof, &mut sink);
            (
                sink.bytes().to_vec(alloc).unwrap_or(Vec::new(alloc)),
                is_whole,
            )
        }
        Err(_) => (Vec::new(alloc), false),
    }
}

/// Whether a proof is written to any sink.
fn write_to<K: Sink>(proof: &Detached, sink: &mut K) -> bool {
    write_file(proof, sink).is_ok()
}

fn cuts(alloc: Global, bytes: &[u8], said: &mut Said) {
    let mut runs = Runs::new(alloc);
    for end in 0..=bytes.len() {
        let mut each = Said::new(alloc);
        cut(alloc, bytes.get(..end).unwrap_or(&[]), &mut each);
        runs.add(each.words(), said);
    }
    runs.end(said);
}

/// Says what these bytes come to, whole and one by one.
fn cut(alloc: Global, bytes: &[u8], said: &mut Said) {
    whole(alloc, bytes, said);
    if let Ok(ones) = vec![in alloc; 1usize; bytes.len()] {
        say_source(alloc, bytes, &ones, &[], said);
    }
}

fn source(names: &Names, text: &str, said: &mut Said) {
    let (cuts, rest) = split_bar(text);
    let (failing, bytes) = split_bar(rest);
    say_source(
        names.allocator(),
        &bytes_of(names, bytes),
        &counts_of(names, cuts),
        &numbers_of(names, failing),
        said,
    );
}

/// Says the file from a source that gives so many bytes at a time, where these reads fail.
fn say_source(alloc: Global, bytes: &[u8], cuts: &[usize], failing: &[u64], said: &mut Said) {
    if let Ok(mut source) = BytesSource::new(alloc, bytes, cuts, failing) {
        say_file(alloc, file_from(alloc, &mut source), bytes, said);
    }
}

/// The file from any source.
fn file_from<S: Source>(alloc: Global, source: &mut S) -> Result<Detached, FileError> {
    read_file(alloc, source)
}

fn write(names: &Names, text: &str, said: &mut Said) {
    let (failing, rest) = split_bar(text);
    let bytes = bytes_of(names, rest);
    if let Ok(proof) = read_bytes(names.allocator(), &bytes) {
        let (taken, is_whole) = written(names.allocator(), &proof, &numbers_of(names, failing));
        said.whether(is_whole);
        said.count(taken.len());
        said.whether(bytes.starts_with(&taken));
    }
}

fn hash(names: &Names, text: &str, said: &mut Said) {
    let (hash, rest) = split_word(text);
    let (limit, rest) = split_number(rest);
    let (cuts, rest) = split_bar(rest);
    let (failing, bytes) = split_bar(rest);
    let cuts = counts_of(names, cuts);
    let failing = numbers_of(names, failing);
    if let Ok(mut source) = BytesSource::new(
        names.allocator(),
        &bytes_of(names, bytes),
        &cuts,
        &failing,
    ) {
        say_hash(
            hash_from(&mut source, hash_of(hash), limit.min(GREATEST)),
            said,
        );
    }
}

/// The digest of what any source gives.
fn hash_from<S: Source>(source: &mut S, hash: HashOp, limit: u64) -> Result<Digest, HashError> {
    hash_source(source, hash, limit.min(GREATEST))
}

/// Says a digest, or why there is none.
fn say_hash(digest: Result<Digest, HashError>, said: &mut Said) {
    match digest {
        Ok(digest) => say_digest(Some(digest), said),
        Err(HashError::ReadFault) => said.word("read fault"),
        Err(HashError::FileTooLong(limit)) => {
            said.word("too long");
            said.number(limit);
        }
    }
}
