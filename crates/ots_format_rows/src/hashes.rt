// Hashes, and digests.
//
// | line | its answer |
// |---|---|
// | `hash tag HASH` | the tag of a hash, and the length of its digest |
// | `hash whole BYTES` | the RIPEMD-160 of the bytes |
// | `hash by N BYTES` | the same, fed in pieces of N bytes |
// | `hash pieces HASH BYTES \| BYTES \| BYTES` | the digest of three pieces, each of at most 1000 bytes |
// | `hash digest BYTES` | the digest that these bytes are |
// | `hash same BYTES \| BYTES` | whether two digests are the same |
use crate::names::Names;
use crate::words::{bytes_of, split_bar, split_number, split_word};
use ots_ops::{Digest, HashOp, Hasher};
use ots_ripemd::{Ripemd160, ripemd160};
use ots_row_words::Said;

/// The longest piece, and the longest bytes that are hashed here.
const PIECE: usize = 1000;

const MOST: usize = 4_194_304;

/// Answers a question about hashes.
pub fn answer(names: &Names, text: &str, said: &mut Said) {
    let (word, rest) = split_word(text);
    match word {
        "tag" => tag(hash_of(rest), said),
        "whole" => whole(&bytes_of(names, rest), said),
        "by" => by(names, rest, said),
        "pieces" => pieces(names, rest, said),
        "digest" => say_digest(Digest::new(&bytes_of(names, rest)), said),
        _ => same(names, rest, said),
    }
}

/// The hash of a word.
pub fn hash_of(word: &str) -> HashOp {
    match word {
        "sha1" => HashOp::Sha1,
        "ripemd160" => HashOp::Ripemd160,
        _ => HashOp::Sha256,
    }
}

/// The word of a hash.
pub fn word_of(hash: HashOp) -> &'static str {
    match hash {
        HashOp::Sha1 => "sha1",
        HashOp::Ripemd160 => "ripemd160",
        HashOp::Sha256 => "sha256",
    }
}

fn tag(hash: HashOp, said: &mut Said) {
    said.digits(&[hash.tag()]);
    said.count(hash.digest_length());
}

fn whole(bytes: &[u8], said: &mut Said) {
    if bytes.len() <= MOST {
        said.digits(&ripemd160(bytes));
    }
}

fn by(names: &Names, text: &str, said: &mut Said) {
    let (size, rest) = split_number(text);
    said.digits(&in_pieces(&bytes_of(names, rest), size as usize));
}

/// The digest of at most `MOST` bytes that are fed in pieces of `size`, the last of them shorter.
fn in_pieces(bytes: &[u8], size: usize) -> [u8; 20] {
    let mut hasher = Ripemd160::new();
    let mut left = MOST;
    for piece in bytes.chunks(size.max(1)) {
        if piece.len() > left {
            break;
        }
        left -= piece.len();
        hasher.update(piece);
    }
    hasher.finalize()
}

fn pieces(names: &Names, text: &str, said: &mut Said) {
    let (hash, rest) = split_word(text);
    let (first, rest) = split_bar(rest);
    let (second, third) = split_bar(rest);
    let first = bytes_of(names, first);
    let second = bytes_of(names, second);
    let third = bytes_of(names, third);
    say_digest(digest_of(hash_of(hash), &first, &second, &third), said);
}

/// The digest of three pieces, none where one is longer than `PIECE`.
fn digest_of(hash: HashOp, first: &[u8], second: &[u8], third: &[u8]) -> Option<Digest> {
    if first.len() > PIECE || second.len() > PIECE || third.len() > PIECE {
        return None;
    }
    let mut hasher = Hasher::new(hash);
    hasher.update(first);
    hasher.update(second);
    hasher.update(third);
    Some(hasher.finalize())
}

/// Says the bytes of a digest, where there is one.
pub fn say_digest(digest: Option<Digest>, said: &mut Said) {
    match digest {
        Some(digest) => said.digits(digest.bytes()),
        None => said.word("none"),
    }
}

fn same(names: &Names, text: &str, said: &mut Said) {
    let (first, second) = split_bar(text);
    let first = Digest::new(&bytes_of(names, first));
    let second = Digest::new(&bytes_of(names, second));
    said.whether(first == second);
}
