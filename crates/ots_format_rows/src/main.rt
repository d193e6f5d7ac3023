//! Rows of the format as data: numbers, hashes, operations, attestations, trees, proof files, their
//! canonical form, what calendars are asked for, and what headers confirm. Each line of the script on
//! standard input is one question; the transcript on standard output repeats it, and has the answer
//! below. `interop/format_rows.py` makes the transcript that is expected, and runs nothing of this
//! repository.
//!
//! | line | what it says |
//! |---|---|
//! | `# ..` | nothing: what the rows below it show |
//! | `let NAME BYTES` | from here on the word NAME stands for these bytes |
//! | `each NAME N M WORDS` | the same, of these words for each number from N to M, with `@4`, `@3` and `@d` of it |
//! | `number`, `hash`, `op`, `attestation`, `tree`, `read` .. | a question, by the tables at the heads of the modules |
//! | `file`, `canon`, `pairs`, `verdict` .. | the same |
//!
//! BYTES are words: hexadecimal digits, a text in quotes, or a name; each with `*N` after it stands so
//! many times. Long bytes are told by their number and their SHA-256. OP is `sha1`, `ripemd160`,
//! `sha256`, `reverse`, `hexlify`, `append:BYTES` or `prepend:BYTES`, of one word.
#![tactic(auto)]

mod attestations;
mod canons;
mod files;
mod hashes;
mod names;
mod numbers;
mod operations;
mod ops;
mod orders;
mod pairs;
mod readers;
mod runs;
mod script;
mod tokens;
mod trees;
mod verdicts;
mod words;

use crate::script::Script;
use ots_row_words::Said;
use std::alloc::AllocError;
use std::io;

fn main(rt: HostRuntime) -> io::Result<()> {
    let alloc = rt.alloc();
    let mut script = Script::new(alloc);
    let mut said = Said::new(alloc);
    for line in rt.lines(alloc) {
        script.obey(line?.as_str(), &mut said);
        match said.text() {
            Some(text) => rt.print(text)?,
            None => return Err(io::Error::from(AllocError)),
        }
        said.clear();
    }
    Ok(())
}
