// Blocks, and the trees of their transactions.
//
// | line | its answer |
// |---|---|
// | `block of BYTES` | the root and the time of its header, and of each transaction the id and the stripped bytes |
// | `block prefixes BYTES` | each length at which a prefix has another fault than the one before, and that fault |
// | `block root N \| IDS` | the root over the first N ids |
// | `block branch N I.. \| IDS` | the branch of each of these ids, as its copy has it |
//
// Where the bytes are no block, it is said what is wrong, and at which place.
use crate::names::Names;
use crate::said::Said;
use crate::trees::{Question, question_of};
use crate::words::{bytes_of, split_word};
use ots_bitcoin::{Block, BlockError, BlockReason};
use ots_merkle::{Branch, Side, block_branch, block_root};
use std::alloc::Global;

/// The most ids of a tree.
const MOST: usize = 100_000;

/// Answers a question about blocks.
pub fn answer(names: &Names, text: &str, said: &mut Said) {
    let (word, rest) = split_word(text);
    match word {
        "of" => of(names.allocator(), &bytes_of(names, rest), said),
        "prefixes" => prefixes(names.allocator(), &bytes_of(names, rest), said),
        "root" => root(names.allocator(), &question_of(names, rest), said),
        _ => branches(names.allocator(), &question_of(names, rest), said),
    }
}

fn of(alloc: Global, bytes: &[u8], said: &mut Said) {
    match Block::read(alloc, bytes) {
        Ok(block) => say_block(&block, said),
        Err(error) => say_error(Some(error), said),
    }
}

/// Says the parts of a block.
fn say_block(block: &Block, said: &mut Said) {
    let header = block.header();
    said.bytes(&header.root);
    said.number(u64::from(header.time));
    said.count(block.count());
    for i in 0..block.count() {
        if let Ok(id) = block.txid(i)
            && let Ok(stripped) = block.stripped(i)
        {
            said.bytes(&id);
            said.bytes(&stripped);
        }
    }
}

/// Says why bytes are no block, or that they are one.
pub fn say_error(error: Option<BlockError>, said: &mut Said) {
    match error {
        Some(BlockError::BadBlock { place, reason }) => {
            said.word(word_of(reason));
            said.word("at");
            said.number(place);
        }
        Some(BlockError::OutOfMemory) => said.word("out of memory"),
        None => said.word("a block"),
    }
}

fn word_of(reason: BlockReason) -> &'static str {
    match reason {
        BlockReason::Truncated => "truncated",
        BlockReason::NonMinimal => "non-minimal number",
        BlockReason::TooLarge => "number too large",
        BlockReason::BadFlag => "bad flag",
        BlockReason::NoTransaction => "no transaction",
        BlockReason::Rest => "rest",
    }
}

fn prefixes(alloc: Global, bytes: &[u8], said: &mut Said) {
    let mut last = None;
    for length in 0..bytes.len() {
        let error = Block::read(alloc, bytes.get(..length).unwrap_or(&[])).err();
        if error != last {
            said.count(length);
            say_error(error, said);
            last = error;
        }
    }
}

fn root(alloc: Global, question: &Question, said: &mut Said) {
    let ids = question.leaves.as_slice();
    if !ids.is_empty() && ids.len() <= MOST {
        said.hash(block_root(alloc, ids).ok());
    }
}

fn branches(alloc: Global, question: &Question, said: &mut Said) {
    let ids = question.leaves.as_slice();
    for i in &question.indexes {
        if *i < ids.len()
            && ids.len() <= MOST
            && let Ok(branch) = block_branch(alloc, ids, *i)
            && let Ok(copy) = branch.copy()
        {
            say_branch(&copy, said);
        }
    }
}

/// Says the neighbours of a branch, each with its side.
fn say_branch(branch: &Branch, said: &mut Said) {
    for (side, hash) in branch.items() {
        match side {
            Side::Left => said.word("left"),
            Side::Right => said.word("right"),
        }
        said.bytes(hash);
    }
    said.word(";");
}
