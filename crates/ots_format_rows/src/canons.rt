// The canonical form of trees, and what is made of it.
//
// | line | its answer |
// |---|---|
// | `canon form TREE` | the form of a tree, whether the tree and the form are canonical, and whether both are equal |
// | `canon is TREE` | whether a tree is canonical |
// | `canon equal TREE \| TREE` | whether two trees have the same paths |
// | `canon prune TREE` | what pruning leaves of it |
// | `canon merge FILE \| FILE` | the proof that two proofs are joined to |
// | `canon pair FILE \| FILE` | the forms of both trees, what pruning leaves of them, and both proofs joined |
// | `canon sizes TREE` | the same as of `form`, with the numbers of bytes alone, and that of what pruning leaves |
//
// TREE is the BYTES of a tree below 32 bytes, FILE those of a proof file.
use crate::hashes::word_of;
use crate::names::Names;
use crate::tokens::say_tree;
use crate::trees::read;
use crate::words::{bytes_of, split_bar, split_word};
use ots_canon::{MergeError, canon, equal, is_canonical, merge, prune};
use ots_detached::read_bytes;
use ots_ops::HashOp;
use ots_row_words::Said;
use ots_tree::{Detached, Tree, spelled_length};
use std::alloc::Global;

/// Answers a question about canonical forms.
pub fn answer(names: &Names, text: &str, said: &mut Said) {
    let (word, rest) = split_word(text);
    match word {
        "merge" => on_files(names, rest, said),
        "pair" => pair(names, rest, said),
        "equal" => same(names, rest, said),
        _ => {
            if let Some(tree) = read(names, rest) {
                on_tree(names, word, &tree, said);
            }
        }
    }
}

/// Answers a question about one tree.
fn on_tree(names: &Names, word: &str, tree: &Tree, said: &mut Said) {
    match word {
        "form" => form(names, tree, said),
        "is" => said.whether(is_canonical(tree)),
        "prune" => pruned(names, tree, said),
        _ => sizes(names.allocator(), tree, said),
    }
}

fn form(names: &Names, tree: &Tree, said: &mut Said) {
    if let Ok(form) = canon(names.allocator(), tree) {
        say_tree(names, &form, said);
        say_form(names.allocator(), tree, &form, said);
    }
}

/// Says whether a tree and its form are canonical, and whether both are equal.
fn say_form(alloc: Global, tree: &Tree, form: &Tree, said: &mut Said) {
    said.word("canonical");
    said.whether(is_canonical(tree));
    said.whether(is_canonical(form));
    said.word("equal");
    say_equal(alloc, tree, form, said);
}

/// Says whether two trees have the same paths.
fn say_equal(alloc: Global, first: &Tree, second: &Tree, said: &mut Said) {
    if let Ok(is_equal) = equal(alloc, first, second) {
        said.whether(is_equal);
    }
}

fn same(names: &Names, text: &str, said: &mut Said) {
    let (first, second) = split_bar(text);
    if let Some(first) = read(names, first)
        && let Some(second) = read(names, second)
    {
        say_equal(names.allocator(), &first, &second, said);
    }
}

fn pruned(names: &Names, tree: &Tree, said: &mut Said) {
    if let Ok(left) = prune(names.allocator(), tree) {
        say_tree(names, &left, said);
    }
}

fn sizes(alloc: Global, tree: &Tree, said: &mut Said) {
    said.number(spelled_length(tree));
    if let Ok(form) = canon(alloc, tree) {
        said.number(spelled_length(&form));
        say_form(alloc, tree, &form, said);
    }
    if let Ok(left) = prune(alloc, tree) {
        said.number(spelled_length(&left));
    }
}

/// The file of these words.
pub fn file_of(names: &Names, text: &str) -> Option<Detached> {
    read_bytes(names.allocator(), &bytes_of(names, text)).ok()
}

fn on_files(names: &Names, text: &str, said: &mut Said) {
    let (first, second) = split_bar(text);
    if let Some(first) = file_of(names, first)
        && let Some(second) = file_of(names, second)
    {
        joined(names, &first, &second, said);
    }
}

fn joined(names: &Names, first: &Detached, second: &Detached, said: &mut Said) {
    match merge(names.allocator(), first, second) {
        Ok(proof) => {
            say_hashed(proof.hash, proof.digest.bytes(), said);
            say_tree(names, &proof.tree, said);
        }
        Err(error) => say_difference(&error, said),
    }
}

/// Says why two proofs are not joined.
fn say_difference(error: &MergeError, said: &mut Said) {
    match error {
        MergeError::Differs {
            first_hash,
            first_digest,
            second_hash,
            second_digest,
        } => {
            said.word("differ");
            say_hashed(*first_hash, first_digest.bytes(), said);
            say_hashed(*second_hash, second_digest.bytes(), said);
        }
        MergeError::OutOfMemory => said.word("out of memory"),
    }
}

/// Says a hash and a digest.
fn say_hashed(hash: HashOp, digest: &[u8], said: &mut Said) {
    said.word(word_of(hash));
    said.digits(digest);
}

fn pair(names: &Names, text: &str, said: &mut Said) {
    let (first, second) = split_bar(text);
    if let Some(first) = file_of(names, first)
        && let Some(second) = file_of(names, second)
    {
        both(names, &first, &second, said);
    }
}

/// Says the forms of both trees, what pruning leaves of them, and the tree of both proofs joined.
fn both(names: &Names, first: &Detached, second: &Detached, said: &mut Said) {
    form(names, &first.tree, said);
    pruned_after(names, &first.tree, said);
    form(names, &second.tree, said);
    pruned_after(names, &second.tree, said);
    joined(names, first, second, said);
}

/// Says what pruning leaves of a tree, after a word.
fn pruned_after(names: &Names, tree: &Tree, said: &mut Said) {
    said.word("pruned");
    pruned(names, tree, said);
    said.word(";");
}
