// Trees that are read, whole and in pieces.
//
// | line | its answer |
// |---|---|
// | `read tree N D BYTES` | the tree below a message of N bytes and D operations |
// | `read cuts N D BYTES` | the same of each prefix |
// | `read by N D SIZE BYTES` | the same fed in pieces of this size |
// | `read halves N D BYTES` | the same fed in two pieces, cut at each place |
// | `read pieces BYTES \| ..` | what each of these pieces is answered, and the end, below 32 bytes |
// | `read tokens SIZE BYTES` | the tokens that are handed out of pieces of this size, below 32 bytes |
// | `read next BYTES \| ..` | what each of these pieces hands out, and the place then, below 32 bytes |
// | `read token BYTES` | the token that these bytes begin with |
//
// A tree is told by the number of its bytes, and whether it is written as they are; a fault by its place,
// its reason, and how many bytes had come.
ghost use Rattle.std.specs.Prelude.{◌≡◌, ◌≤◌, ◌<◌, ◌+◌, ◌^◌, [], length, IfSome};
ghost use Rattle.ots_reader.specs.Progress.{reading};
ghost use Rattle.ots_format_rows.specs.Refused.{IsRefused};
ghost use Rattle.ots_reader.specs.Tokens.{so_far, IsReading};

use crate::attestations::say_attestation;
use crate::names::Names;
use crate::ops::say_op;
use crate::runs::Runs;
use crate::tokens::push_spelled;
use crate::trees::{BELOW_DIGEST, shape_of, spelled};
use crate::words::{bytes_of, split_number, split_word};
use ots_reader::{Fault, Fed, Next, ReadError, TokenReader, TreeReader, read_token, read_tree};
use ots_row_words::Said;
use ots_tree::{Shape, Token, TokenRef, Tree};
use std::alloc::Global;

/// The most bytes of all pieces.
const MOST: usize = 4_194_304;

/// Answers a question about reading.
pub fn answer(names: &Names, text: &str, said: &mut Said) {
    let (word, rest) = split_word(text);
    match word {
        "pieces" => pieces(names, rest, said),
        "next" => next(names, rest, said),
        "token" => token(names.allocator(), &bytes_of(names, rest), said),
        "tokens" => tokens(names, rest, said),
        _ => below(names, word, rest, said),
    }
}

/// Answers what a tree below a shape comes to.
fn below(names: &Names, word: &str, text: &str, said: &mut Said) {
    let (length, rest) = split_number(text);
    let (depth, rest) = split_number(rest);
    let shape = shape_of(length, depth);
    match word {
        "tree" => tree(names.allocator(), shape, &bytes_of(names, rest), said),
        "cuts" => cuts(names.allocator(), shape, &bytes_of(names, rest), said),
        "halves" => halves(names.allocator(), shape, &bytes_of(names, rest), said),
        _ => by(names, shape, rest, said),
    }
}

fn tree(alloc: Global, shape: Shape, bytes: &[u8], said: &mut Said) {
    if shape.length >= 1 && shape.length <= 4096 && shape.depth <= 255 {
        match read_tree(alloc, bytes, shape) {
            Ok((tree, used)) => say_tree(alloc, &tree, used, bytes, said),
            Err(error) => say_error(error, bytes.len(), said),
        }
    }
}

/// Says how many bytes a tree has, and whether it is written as they are.
fn say_tree(alloc: Global, tree: &Tree, used: usize, bytes: &[u8], said: &mut Said) {
    said.word("tree of");
    said.count(used);
    said.whether(Some(spelled(alloc, tree).as_slice()) == bytes.get(..used));
}

/// Says why there is no tree.
fn say_error(error: ReadError, came: usize, said: &mut Said) {
    match error {
        ReadError::Fault(fault) => say_fault(fault, said),
        ReadError::OutOfMemory => said.word("out of memory"),
    }
    said.word("after");
    said.count(came);
}

/// Says a fault.
pub fn say_fault(fault: Fault, said: &mut Said) {
    said.word("fault");
    said.number(fault.place);
    said.push(" ");
    said.show(&fault.reason);
}

fn cuts(alloc: Global, shape: Shape, bytes: &[u8], said: &mut Said) {
    let mut runs = Runs::new(alloc);
    for end in 0..=bytes.len() {
        let mut each = Said::new(alloc);
        tree(alloc, shape, bytes.get(..end).unwrap_or(&[]), &mut each);
        runs.add(each.words(), said);
    }
    runs.end(said);
}

fn halves(alloc: Global, shape: Shape, bytes: &[u8], said: &mut Said) {
    let mut runs = Runs::new(alloc);
    for first in 0..=bytes.len() {
        let mut each = Said::new(alloc);
        in_two(alloc, shape, bytes, first, &mut each);
        runs.add(each.words(), said);
    }
    runs.end(said);
}

/// Says what comes of bytes in two pieces, of which the first one has so many.
fn in_two(alloc: Global, shape: Shape, bytes: &[u8], first: usize, said: &mut Said) {
    if let Some((first, second)) = bytes.split_at_checked(first)
        && let Some(reader) = begun(alloc, shape)
    {
        feed_both(alloc, reader, bytes, first, second, said);
    }
}

fn by(names: &Names, shape: Shape, text: &str, said: &mut Said) {
    let (size, rest) = split_number(text);
    let bytes = bytes_of(names, rest);
    if let Some(reader) = begun(names.allocator(), shape) {
        feed_by(
            names.allocator(),
            reader,
            &bytes,
            (size as usize).max(1),
            said,
        );
    }
}

fn pieces(names: &Names, text: &str, said: &mut Said) {
    if let Some(reader) = begun(names.allocator(), BELOW_DIGEST) {
        feed_each(names, reader, text, said);
    }
}

/// A reader that has no byte yet of a tree below this shape.
fn begun(alloc: Global, shape: Shape) -> Option<TreeReader>
    ensures { IfSome result (λ r. r.progress ≡ reading []) }
{
    if shape.length < 1 || shape.length > 4096 || shape.depth > 255 {
        return None;
    }
    TreeReader::begin(alloc, shape).ok()
}

/// Says what comes of bytes in pieces of this many, at least one, the last one of fewer.
fn feed_by(alloc: Global, reader: TreeReader, bytes: &[u8], size: usize, said: &mut Said)
    requires fresh { reader.progress ≡ reading [] }
    requires some { 1 ≤ size }
{
    let mut reader = reader;
    let mut came = 0;
    while came < bytes.len() {
        let count = size.min(bytes.len() - came);
        match reader.feed(&bytes[came..came + count]) {
            Ok(Fed::More) => came += count,
            Ok(Fed::Done(used)) => return finish(alloc, reader, bytes, came + used, said),
            Err(error) => return say_error(error, came + count, said),
        }
    }
    finish(alloc, reader, bytes, came, said);
}

/// Says what comes of bytes in these two pieces.
fn feed_both(
    alloc: Global,
    reader: TreeReader,
    bytes: &[u8],
    first: &[u8],
    second: &[u8],
    said: &mut Said,
)
    requires fresh { reader.progress ≡ reading [] }
    requires few { length first.now + length second.now < 2 ^ 64 }
{
    let mut reader = reader;
    match reader.feed(first) {
        Ok(Fed::More) => {}
        Ok(Fed::Done(used)) => return finish(alloc, reader, bytes, used, said),
        Err(error) => return say_error(error, first.len(), said),
    }
    match reader.feed(second) {
        Ok(Fed::More) => finish(alloc, reader, bytes, bytes.len(), said),
        Ok(Fed::Done(used)) => finish(alloc, reader, bytes, first.len() + used, said),
        Err(error) => say_error(error, bytes.len(), said),
    }
}

/// Says what a reader answers that no more bytes come to, after this many.
fn finish(alloc: Global, reader: TreeReader, bytes: &[u8], came: usize, said: &mut Said) {
    match reader.finish() {
        Ok(tree) => say_tree(alloc, &tree, came, bytes, said),
        Err(error) => say_error(error, came, said),
    }
}

/// Says what each piece is answered, and the end.
#[tactic(auto, using(crate::proofs::Came::may_go_on))]
fn feed_each(names: &Names, reader: TreeReader, text: &str, said: &mut Said)
    requires fresh { reader.progress ≡ reading [] }
{
    let mut reader = reader;
    let mut all = Vec::new(names.allocator());
    let mut left = MOST;
    for part in text.split(" | ") {
        let piece = bytes_of(names, part);
        if piece.len() > left {
            return;
        }
        left -= piece.len();
        let _ = all.extend_from_slice(&piece);
        match reader.feed(&piece) {
            Ok(Fed::More) => said.word("more;"),
            Ok(Fed::Done(used)) => {
                said.word("done");
                said.count(used);
                let before = all.len().saturating_sub(piece.len());
                let came = before.saturating_add(used);
                return finish(names.allocator(), reader, &all, came, said);
            }
            Err(error) => {
                say_error(error, MOST - left, said);
                return again(reader, &all, said);
            }
        }
    }
    finish(names.allocator(), reader, &all, MOST - left, said);
}

/// Says what a reader that was refused answers to no bytes, to all of them again, and to the end.
fn again(reader: TreeReader, bytes: &[u8], said: &mut Said)
    requires { IsRefused reader.progress }
{
    let mut reader = reader;
    say_answer(reader.feed(&[]), said);
    say_answer(reader.feed(bytes), said);
    match reader.finish() {
        Ok(_) => said.word("a tree"),
        Err(error) => say_answer(Err(error), said),
    }
}

/// Says what a piece is answered.
fn say_answer(answer: Result<Fed, ReadError>, said: &mut Said) {
    match answer {
        Ok(_) => said.word("fed"),
        Err(error) => say_error(error, 0, said),
    }
}

/// A reader that has no byte yet, of a tree below a message of 32 bytes.
fn begun_tokens(alloc: Global) -> Option<TokenReader>
    ensures fed { IfSome result (λ r. so_far r ≡ []) }
    ensures reading { IfSome result (λ r. IsReading r) }
{
    TokenReader::begin(alloc, BELOW_DIGEST).ok()
}

fn tokens(names: &Names, text: &str, said: &mut Said) {
    let (size, rest) = split_number(text);
    let bytes = bytes_of(names, rest);
    let mut handed = Vec::new(names.allocator());
    if let Some(reader) = begun_tokens(names.allocator()) {
        hand_out(
            names.allocator(),
            reader,
            &bytes,
            (size as usize).max(1),
            &mut handed,
        );
    }
    said.count(handed.len());
    said.whether(handed == bytes);
}

/// Appends the bytes of the tokens that are handed out of bytes in pieces of this many, at least one.
fn hand_out(alloc: Global, reader: TokenReader, bytes: &[u8], size: usize, handed: &mut Vec<u8>)
    requires fed { so_far reader ≡ [] }
    requires reading { IsReading reader }
    requires some { 1 ≤ size }
{
    let mut reader = reader;
    let mut came = 0;
    while came < bytes.len() {
        let count = size.min(bytes.len() - came);
        match reader.next(&bytes[came..came + count]) {
            Ok(Some(next)) => {
                push_token(alloc, next.token, handed);
                came += next.used;
                if next.last {
                    return;
                }
            }
            Ok(None) => came += count,
            Err(_) => return,
        }
    }
}

/// Appends the bytes of a token.
fn push_token(alloc: Global, token: TokenRef<'_>, handed: &mut Vec<u8>) {
    match token.to_owned(alloc) {
        Ok(token) => push_spelled(&token, handed),
        Err(_) => {}
    }
}

fn next(names: &Names, text: &str, said: &mut Said) {
    if let Some(reader) = begun_tokens(names.allocator()) {
        next_each(names, reader, text, said);
    }
}

/// Says what each piece hands out, and the place then.
fn next_each(names: &Names, reader: TokenReader, text: &str, said: &mut Said)
    requires fed { so_far reader ≡ [] }
    requires reading { IsReading reader }
{
    let mut reader = reader;
    let mut left = MOST;
    for part in text.split(" | ") {
        let piece = bytes_of(names, part);
        if piece.len() > left {
            return;
        }
        left -= piece.len();
        match reader.next(&piece) {
            Ok(Some(next)) => {
                let last = next.last;
                say_next(names.allocator(), next, said);
                if last {
                    return;
                }
            }
            Ok(None) => said.word("none"),
            Err(fault) => return say_fault(fault, said),
        }
        said.word("at");
        said.number(reader.place());
    }
}

/// Says a token that is handed out.
fn say_next(alloc: Global, next: Next<'_>, said: &mut Said) {
    said.count(next.used);
    said.whether(next.last);
    say_token(alloc, next.token, said);
}

/// Says a token.
fn say_token(alloc: Global, token: TokenRef<'_>, said: &mut Said) {
    match token.to_owned(alloc) {
        Ok(Token::Fork) => said.word("fork"),
        Ok(Token::Op(op)) => say_op(&op, said),
        Ok(Token::Attestation(attestation)) => say_attestation(&attestation, said),
        Err(_) => said.word("out of memory"),
    }
}

fn token(alloc: Global, bytes: &[u8], said: &mut Said) {
    match read_token(bytes) {
        Ok((token, used)) => {
            said.count(used);
            say_token(alloc, token, said);
        }
        Err(reason) => {
            said.push(" ");
            said.show(&reason);
        }
    }
}
