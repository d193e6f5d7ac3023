// Trees that are made of others, and what they are.
//
// | line | its answer |
// |---|---|
// | `tree make TREE` | its bytes and their number, whether its copy is the same, and its depths twice |
// | `tree sound N D TREE` | whether it is sound below N bytes and D operations, and the number of its bytes |
// | `tree write N FAILS \| TREE` | what a sink takes that holds N bytes, where these writes fail |
// | `tree room N M` | a tree of two attestations, whose builder made room for N and for M tokens |
// | `tree proof HASH BYTES \| TREE` | whether it is a proof of this digest, and the number of its bytes |
// | `tree pending HASH BYTES \| TREE` | the paths of that proof that are pending |
//
// TREE is a list of steps with ` , ` between them: `single OP.. KIND:BYTES` is a tree of one path,
// `read BYTES` one below a message of 32 bytes, `under OP..` puts operations before the last tree, and
// `beside` joins the last two.
use crate::attestations::{kind_of, owned, say_uri};
use crate::hashes::hash_of;
use crate::names::Names;
use crate::ops::ops_of;
use crate::words::{bytes_of, numbers_of, split_bar, split_number, split_word};
use ots_attest::Attestation;
use ots_base::OutOfMemory;
use ots_io::{BytesSink, Sink};
use ots_ops::{Digest, HashOp};
use ots_reader::read_tree;
use ots_row_words::Said;
use ots_tree::{
    Detached, PendingAt, Shape, Token, Tree, TreeBuilder, beside, is_sound, listed,
    pending_messages, single, spell_to, spelled_length, under,
};
use std::alloc::Global;

/// The least piece that a tree is written in, where more follow.
const PIECE: usize = 24_566;

/// Below a digest of 32 bytes.
pub const BELOW_DIGEST: Shape = Shape {
    length: 32,
    depth: 0,
};

/// Answers a question about trees.
pub fn answer(names: &Names, text: &str, said: &mut Said) {
    let (word, rest) = split_word(text);
    match word {
        "make" => make(names, rest, said),
        "sound" => sound(names, rest, said),
        "write" => write(names, rest, said),
        "room" => room(names.allocator(), rest, said),
        "proof" => proof(names, rest, said),
        _ => pending(names, rest, said),
    }
}

/// The tree that these steps make.
pub fn tree_of(names: &Names, text: &str) -> Option<Tree> {
    let mut trees = Vec::new(names.allocator());
    for step in text.split(" , ") {
        let tree = made(names, step, &mut trees)?;
        trees.push(tree).ok()?;
    }
    trees.pop()
}

/// The tree that a step makes, with those that it takes away.
fn made(names: &Names, step: &str, trees: &mut Vec<Tree>) -> Option<Tree> {
    let (word, rest) = split_word(step);
    match word {
        "single" => one_path(names, rest),
        "read" => read(names, rest),
        "under" => under_ops(names, rest, trees.pop()?),
        _ => both(trees.pop()?, trees.pop()?),
    }
}

/// The tree of one path, whose attestation is the last word.
fn one_path(names: &Names, text: &str) -> Option<Tree> {
    let (ops, end) = text.rsplit_once(' ').unwrap_or(("", text));
    let attestation = attestation_of(names, end)?;
    single(names.allocator(), &ops_of(names, ops), attestation).ok()
}

/// The attestation of a kind and a payload, `KIND:BYTES`.
fn attestation_of(names: &Names, word: &str) -> Option<Attestation> {
    let (kind, payload) = word.split_once(':')?;
    owned(
        names.allocator(),
        kind_of(names, kind),
        &bytes_of(names, payload),
    )
    .ok()
}

/// The tree of these bytes, below a message of 32.
pub fn read(names: &Names, text: &str) -> Option<Tree> {
    match read_tree(names.allocator(), &bytes_of(names, text), BELOW_DIGEST) {
        Ok((tree, _)) => Some(tree),
        Err(_) => None,
    }
}

fn under_ops(names: &Names, text: &str, tree: Tree) -> Option<Tree> {
    under(names.allocator(), &ops_of(names, text), tree).ok()
}

/// Two trees side by side, of which the second was made last.
fn both(second: Tree, first: Tree) -> Option<Tree> {
    beside(first, second).ok()
}

/// The bytes of a tree.
pub fn spelled(alloc: Global, tree: &Tree) -> Vec<u8> {
    written(alloc, tree, spelled_length(tree), &[]).0
}

/// What a sink takes that holds so many bytes, where these writes fail, and whether it takes all.
fn written(alloc: Global, tree: &Tree, capacity: u64, failing: &[u64]) -> (Vec<u8>, bool) {
    match BytesSink::new(alloc, capacity as usize, failing) {
        Ok(mut sink) => {
            let is_whole = write_to(tree, &mut sink);
            (
                sink.bytes().to_vec(alloc).unwrap_or(Vec::new(alloc)),
                is_whole,
            )
        }
        Err(_) => (Vec::new(alloc), false),
    }
}

/// Whether a tree is written to any sink.
fn write_to<K: Sink>(tree: &Tree, sink: &mut K) -> bool {
    spell_to(tree, sink).is_ok()
}

fn make(names: &Names, text: &str, said: &mut Said) {
    if let Some(tree) = tree_of(names, text) {
        said.bytes(&spelled(names.allocator(), &tree));
        said.number(spelled_length(&tree));
        say_copy(names.allocator(), &tree, said);
        for depth in tree.depths() {
            said.number(u64::from(*depth));
        }
        say_listed(names.allocator(), &tree, said);
    }
}

/// Says whether the copy of a tree is spelled as the tree is.
fn say_copy(alloc: Global, tree: &Tree, said: &mut Said) {
    if let Ok(copy) = tree.copy() {
        said.whether(spelled(alloc, &copy) == spelled(alloc, tree));
    }
}

/// Says the depths of the tokens of a tree as they are listed.
fn say_listed(alloc: Global, tree: &Tree, said: &mut Said) {
    if let Ok(tokens) = listed(alloc, tree) {
        said.word("listed");
        for at in &tokens {
            said.number(u64::from(at.depth));
        }
    }
}

/// The shape of these numbers.
pub fn shape_of(length: u64, depth: u64) -> Shape {
    Shape {
        length: length.min(4097) as u32,
        depth: depth.min(256) as u32,
    }
}

fn sound(names: &Names, text: &str, said: &mut Said) {
    let (length, rest) = split_number(text);
    let (depth, rest) = split_number(rest);
    if let Some(tree) = tree_of(names, rest) {
        said.whether(is_sound(&tree, shape_of(length, depth)));
        said.number(spelled_length(&tree));
    }
}

fn write(names: &Names, text: &str, said: &mut Said) {
    let (capacity, rest) = split_number(text);
    let (failing, rest) = split_bar(rest);
    if let Some(tree) = tree_of(names, rest) {
        let failing = numbers_of(names, failing);
        let (taken, is_whole) = written(names.allocator(), &tree, capacity, &failing);
        say_taken(&taken, is_whole, &spelled(names.allocator(), &tree), said);
    }
}

/// Says whether a sink took all of a text, or a prefix of it, and how many large pieces that are.
fn say_taken(taken: &[u8], is_whole: bool, text: &[u8], said: &mut Said) {
    if is_whole {
        said.bytes(taken);
    } else {
        said.word("write fault, large pieces");
        said.count(taken.len() / PIECE);
    }
    said.whether(text.starts_with(taken));
}

fn room(alloc: Global, text: &str, said: &mut Said) {
    let (first, second) = split_number(text);
    let (second, _) = split_number(second);
    if let Ok(tree) = with_room(alloc, first as usize, second as usize, said) {
        said.bytes(&spelled(alloc, &tree));
    }
}

/// The Bitcoin attestations 0 and 7. Room is made for so many tokens before each of them.
fn with_room(
    alloc: Global,
    first: usize,
    second: usize,
    said: &mut Said,
) -> Result<Tree, OutOfMemory> {
    let mut tokens = TreeBuilder::new(alloc);
    said.whether(tokens.reserve(first).is_ok());
    tokens.push(Token::Fork)?;
    tokens.push(Token::Attestation(Attestation::Bitcoin(0)))?;
    said.whether(tokens.reserve(second).is_ok());
    tokens.push(Token::Attestation(Attestation::Bitcoin(7)))?;
    Ok(tokens.build())
}

/// The proof of a digest with a tree, where it is one.
fn proof_of(hash: HashOp, bytes: &[u8], tree: Tree) -> Option<Detached> {
    let digest = Digest::new(bytes)?;
    let length = digest.bytes().len();
    let shape = Shape {
        length: length as u32,
        depth: 0,
    };
    if length == hash.digest_length() && is_sound(&tree, shape) {
        return Some(Detached { hash, digest, tree });
    }
    None
}

/// The proof of these words.
fn detached(names: &Names, text: &str) -> Option<Detached> {
    let (digest, rest) = split_bar(text);
    let (hash, digest) = split_word(digest);
    proof_of(
        hash_of(hash),
        &bytes_of(names, digest),
        tree_of(names, rest)?,
    )
}

fn proof(names: &Names, text: &str, said: &mut Said) {
    match detached(names, text) {
        Some(proof) => said.number(spelled_length(&proof.tree)),
        None => said.word("no proof"),
    }
}

fn pending(names: &Names, text: &str, said: &mut Said) {
    if let Some(proof) = detached(names, text)
        && let Ok(found) = pending_messages(names.allocator(), &proof)
    {
        said.count(found.len());
        say_some(&found, said);
    }
}

/// Says each pending path, or the last one of many.
fn say_some(found: &[PendingAt], said: &mut Said) {
    let some = if found.len() > 10 {
        &found[found.len() - 1..]
    } else {
        found
    };
    for at in some {
        say_pending(at, said);
    }
}

fn say_pending(at: &PendingAt, said: &mut Said) {
    said.word("path");
    said.number(at.path);
    said.number(u64::from(at.depth));
    say_uri(at.uri.text(), said);
    said.bytes(at.message.bytes());
}
