// Which transaction of a block holds a root, and the path of a commitment.
//
// | line | its answer |
// |---|---|
// | `anchor find BLOCK \| ROOTS` | which root, which transaction and which place of it; or why there is none |
// | `anchor path I \| COMMITMENTS \| BEFORE \| AFTER \| BRANCH` | the path of this commitment, as it is spelled |
//
// BLOCK, ROOTS and the like are BYTES. BRANCH is a word `left:BYTES` or `right:BYTES` for each neighbour, or `-`.
use crate::blocks::say_error;
use crate::names::Names;
use crate::said::Said;
use crate::trees::say_ops;
use crate::words::{array_of, arrays_of, bytes_of, number_of, split_bar, split_word};
use ots_anchor::{FindError, Found, complete_path, find};
use ots_bitcoin::Block;
use ots_merkle::{Branch, Side};

/// The most commitments, and the most bytes before a root, and after it.
const MOST: usize = 2000;

/// Answers a question about anchors.
pub fn answer(names: &Names, text: &str, said: &mut Said) {
    let (word, rest) = split_word(text);
    match word {
        "find" => find_in(names, rest, said),
        _ => path(names, rest, said),
    }
}

fn find_in(names: &Names, text: &str, said: &mut Said) {
    let (block, roots) = split_bar(text);
    let roots = arrays_of(names.allocator(), &bytes_of(names, roots));
    match Block::read(names.allocator(), &bytes_of(names, block)) {
        Ok(block) => say_found(find(names.allocator(), &block, &roots), said),
        Err(error) => say_error(Some(error), said),
    }
}

/// Says where a root was found, or why none was.
fn say_found(found: Result<Found, FindError>, said: &mut Said) {
    match found {
        Ok(found) => {
            said.count(found.which);
            said.count(found.transaction);
            said.count(found.place);
        }
        Err(FindError::NoTip) => said.word("no tip"),
        Err(FindError::TransactionTooLong(length)) => {
            said.word("transaction too long");
            said.number(length);
        }
        Err(FindError::OutOfMemory) => said.word("out of memory"),
    }
}

fn path(names: &Names, text: &str, said: &mut Said) {
    let alloc = names.allocator();
    let (i, rest) = split_bar(text);
    let i = number_of(i) as usize;
    let (commitments, rest) = split_bar(rest);
    let commitments = arrays_of(alloc, &bytes_of(names, commitments));
    let (before, rest) = split_bar(rest);
    let before = bytes_of(names, before);
    let (after, branch) = split_bar(rest);
    let after = bytes_of(names, after);
    let branch = branch_of(names, branch);
    if i < commitments.len()
        && commitments.len() <= MOST
        && before.len() <= MOST
        && after.len() <= MOST
        && let Ok(ops) = complete_path(alloc, &commitments, i, &before, &after, &branch)
    {
        say_ops(alloc, ops.items(), said);
    }
}

/// The branch of these words.
fn branch_of(names: &Names, text: &str) -> Branch {
    let mut branch = Branch::new(names.allocator());
    for word in text.split(' ') {
        if let Some((side, words)) = word.split_once(':') {
            let side = if side == "left" {
                Side::Left
            } else {
                Side::Right
            };
            let _ = branch.push((side, array_of(&bytes_of(names, words))));
        }
    }
    branch
}
