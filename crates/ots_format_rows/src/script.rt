// What a script has said so far.
use crate::names::Names;
use crate::words::{bytes_of, numbered, split_number, split_word};
use crate::{
    attestations, canons, files, hashes, numbers, operations, pairs, readers, trees, verdicts,
};
use ots_row_words::Said;
use std::alloc::Global;

/// The bytes that have names.
#[derive(Drop)]
pub struct Script {
    names: Names,
}

impl Script {
    /// Nothing was said yet.
    pub fn new(alloc: Global) -> Script {
        Script {
            names: Names::new(alloc),
        }
    }

    /// Takes a line, and says it, and the answer below it.
    pub fn obey(&mut self, line: &str, said: &mut Said) {
        said.push(line);
        said.push("\n");
        let (word, rest) = split_word(line);
        match word {
            "" | "#" => {}
            "let" => self.name(rest),
            "each" => self.name_each(rest),
            _ => {
                said.push("=");
                answer(&self.names, word, rest, said);
                said.push("\n");
            }
        }
    }

    /// Gives bytes a name.
    fn name(&mut self, text: &str) {
        let (name, words) = split_word(text);
        let bytes = bytes_of(&self.names, words);
        self.names.add(name, bytes);
    }

    /// Gives bytes that stand for each of some numbers a name.
    fn name_each(&mut self, text: &str) {
        let (name, rest) = split_word(text);
        let (first, rest) = split_number(rest);
        let (last, words) = split_number(rest);
        let bytes = numbered(&self.names, first, last, words);
        self.names.add(name, bytes);
    }
}

/// Answers a question, by its first word.
fn answer(names: &Names, word: &str, rest: &str, said: &mut Said) {
    match word {
        "number" => numbers::answer(names, rest, said),
        "hash" => hashes::answer(names, rest, said),
        "op" => operations::answer(names, rest, said),
        "attestation" => attestations::answer(names, rest, said),
        "tree" => trees::answer(names, rest, said),
        "read" => readers::answer(names, rest, said),
        "file" => files::answer(names, rest, said),
        "canon" => canons::answer(names, rest, said),
        "pairs" => pairs::answer(names, rest, said),
        "verdict" => verdicts::answer(names, rest, said),
        _ => said.word("no question"),
    }
}
