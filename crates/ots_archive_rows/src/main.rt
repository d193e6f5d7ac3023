//! Rows of an archive as data: the script on standard input says which files there are, which nonces come, which calls
//! fail and what is run, and the transcript on standard output has what came of it. The expected transcript is another
//! program's, interop/archive_rows.py.
//!
//! | line | what it says |
//! |---|---|
//! | `let NAME PIECES` | these bytes have a name, and are `$NAME` in the lines below |
//! | `sha256 NAME PIECES`, `hex NAME PIECES` | so do their SHA-256, and their hexadecimal digits |
//! | `clear` | there are no files and no nonces, and no run makes a file |
//! | `file NAME PIECES` | there is a file with these bytes |
//! | `sheet NAME PIECES` | there is a file with these lines, and the line of their sum after them |
//! | `output NAME..` | a run may make these files |
//! | `nonces PIECES` | the nonces to come, one after the other |
//! | `shelf N..`, `sink N..`, `nonce N..` | these calls of the files, writes of what is printed or draws of a nonce fail in the next run |
//! | `otsarchive WORDS` | a run on these words |
//! | `keep` | the files that the last run made are there in the next |
//! | `made NAME PIECES` | what the last run made under this name is compared |
//! | `each A..B LINE; LINE..` | the lines are read once for each number from A to B, which stands where they have `@` |
//!
//! A piece is hexadecimal digits, as `00ff`; `08*255`, so many times; `{0..9}00`, once for each number, as two bytes
//! and what stands around it; a text in quotes, with `\n`, `\r`, `\\` and `\"`; or `$NAME`, of which `$NAME[..7]` is
//! the prefix. A word is in quotes where it is empty or has spaces. `f{0..9}` is ten words, and so many names.
//!
//! Each line is printed, and below it what came of it. A run prints its text, a line for each output that it made, with
//! its name in quotes and its length, and then the number that it ends with. A text that is not UTF-8 is in quotes too.
#![tactic(auto)]

mod call;
mod run;
mod scene;
mod script;
mod stage;
mod told;

use crate::script::Script;
use ots_row_words::Said;
use std::alloc::AllocError;
use std::io;

fn main(rt: HostRuntime) -> io::Result<()> {
    let alloc = rt.alloc();
    let mut script = Script::new(alloc);
    let mut said = Said::new(alloc);
    for line in rt.lines(alloc) {
        script.read(alloc, line?.as_str(), &mut said)?;
        rt.print(said.text().ok_or(AllocError)?)?;
        said.clear();
    }
    Ok(())
}
