//! Rows of Bitcoin's headers and blocks, of Merkle trees, anchors and rounds as data. Each line of the
//! script on standard input is one question; the transcript on standard output repeats it, and has the
//! answer below. `interop/bitcoin_rows.py` makes the transcript that is expected, and runs nothing of
//! this repository.
//!
//! | line | what it says |
//! |---|---|
//! | `# ..` | nothing: what the rows below it show |
//! | `let NAME BYTES` | from here on `$NAME` stands for these bytes |
//! | `chain NAME N HASH` | for N hashes, each SHA-256 of the one before twice side by side, the first that of HASH |
//! | `header`, `block`, `tree`, `anchor`, `round` .. | a question, by the tables at the heads of the modules |
//!
//! BYTES are words: hexadecimal digits, `$NAME`, or `$NAME[I..J]` for those from place I up to J, either of
//! which may be missing; each with `*N` after it stands so many times.
#![tactic(auto)]

mod anchors;
mod blocks;
mod headers;
mod names;
mod rounds;
mod said;
mod trees;
mod words;
mod zeros;

use crate::names::Names;
use crate::said::Said;
use crate::words::{bytes_of, hash_chain, split_word};
use std::io;

fn main(rt: HostRuntime) -> io::Result<()> {
    let alloc = rt.alloc();
    let mut names = Names::new(alloc);
    let mut said = Said::new(alloc);
    for line in rt.lines(alloc) {
        obey(line?.as_str(), &mut names, &mut said);
        rt.print(said.text())?;
        said.clear();
    }
    Ok(())
}

/// Takes a line, and says it, and the answer below it.
fn obey(line: &str, names: &mut Names, said: &mut Said) {
    said.push(line);
    said.push("\n");
    let (word, rest) = split_word(line);
    let (name, words) = split_word(rest);
    match word {
        "" | "#" => {}
        "let" => {
            let bytes = bytes_of(names, words);
            names.add(name, bytes);
        }
        "chain" => {
            let hashes = hash_chain(names, words);
            names.add(name, hashes);
        }
        _ => {
            said.push("=");
            answer(names, word, rest, said);
            said.push("\n");
        }
    }
}

/// Answers a question, by its first word.
fn answer(names: &Names, word: &str, rest: &str, said: &mut Said) {
    match word {
        "header" => headers::answer(names, rest, said),
        "block" => blocks::answer(names, rest, said),
        "tree" => trees::answer(names, rest, said),
        "anchor" => anchors::answer(names, rest, said),
        "round" => rounds::answer(names, rest, said),
        _ => said.word("no question"),
    }
}
