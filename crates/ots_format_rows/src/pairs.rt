// What a proof asks calendars for, and what their answers make of it.
//
// | line | its answer |
// |---|---|
// | `pairs of FILE` | how many pairs it has, and the URI, message and depth of each, or of the last of many |
// | `pairs bitcoin TREE` | whether a path of Bitcoin makes it complete |
// | `pairs fit FILE \| TREE \| ..` | whether these trees are sound for its pairs, `-` being none |
// | `pairs complete FILE \| TREE \| ..` | the tree with these at the places of its pairs |
use crate::attestations::say_uri;
use crate::canons::file_of;
use crate::names::Names;
use crate::tokens::say_tree;
use crate::trees::read;
use crate::words::{split_bar, split_word};
use ots_canon::equal;
use ots_pending::{Pairs, are_sound_for, completed, completed_within, has_bitcoin, pending_pairs};
use ots_row_words::Said;
use ots_tree::{Detached, Tree, spelled_length};

/// Answers a question about pairs.
pub fn answer(names: &Names, text: &str, said: &mut Said) {
    let (word, rest) = split_word(text);
    match word {
        "of" => of(names, rest, said),
        "bitcoin" => bitcoin(names, rest, said),
        "fit" => fit(names, rest, said),
        _ => complete(names, rest, said),
    }
}

fn of(names: &Names, text: &str, said: &mut Said) {
    if let Some(proof) = file_of(names, text)
        && let Ok(pairs) = pending_pairs(names.allocator(), &proof)
    {
        said.count(pairs.len());
        said.whether(pairs.is_empty());
        let first = if pairs.len() > 10 { pairs.len() - 1 } else { 0 };
        for i in first..pairs.len() {
            say_pair(&pairs, i, said);
        }
    }
}

/// Says a pair.
fn say_pair(pairs: &Pairs, i: usize, said: &mut Said) {
    if i < pairs.len() {
        say_uri(pairs.uri(i).text(), said);
        said.bytes(pairs.message(i).bytes());
        said.number(u64::from(pairs.depth(i)));
        said.push(";");
    }
}

fn bitcoin(names: &Names, text: &str, said: &mut Said) {
    if let Some(tree) = read(names, text) {
        said.whether(has_bitcoin(&tree));
    }
}

/// The trees of these words, `-` being none.
fn trees_of(names: &Names, text: &str) -> Vec<Option<Tree>> {
    let mut trees = Vec::new(names.allocator());
    for part in text.split(" | ") {
        let _ = trees.push(read(names, part));
    }
    trees
}

fn fit(names: &Names, text: &str, said: &mut Said) {
    let (file, rest) = split_bar(text);
    let trees = trees_of(names, rest);
    if let Some(proof) = file_of(names, file)
        && let Ok(pairs) = pending_pairs(names.allocator(), &proof)
        && trees.len() == pairs.len()
    {
        said.whether(are_sound_for(&pairs, &trees));
    }
}

fn complete(names: &Names, text: &str, said: &mut Said) {
    let (file, rest) = split_bar(text);
    if let Some(proof) = file_of(names, file) {
        if rest.is_empty() {
            say_completed(names, &proof, &Vec::new(names.allocator()), said);
        } else {
            say_completed(names, &proof, &trees_of(names, rest), said);
        }
    }
}

/// Says a proof's tree with these trees at the places of its pairs, where it is told within its own length and
/// none within one byte less.
fn say_completed(names: &Names, proof: &Detached, trees: &[Option<Tree>], said: &mut Said) {
    if let Ok(pairs) = pending_pairs(names.allocator(), proof)
        && trees.len() == pairs.len()
        && are_sound_for(&pairs, trees)
        && let Ok(tree) = completed(names.allocator(), proof, &pairs, trees)
        && let Ok(most) = u32::try_from(spelled_length(&tree))
        && let Ok(Some(told)) = completed_within(names.allocator(), proof, &pairs, trees, most)
        && let Ok(true) = equal(names.allocator(), &told, &tree)
        && let Ok(None) = completed_within(
            names.allocator(),
            proof,
            &pairs,
            trees,
            most.saturating_sub(1),
        )
    {
        say_tree(names, &tree, said);
    }
}
