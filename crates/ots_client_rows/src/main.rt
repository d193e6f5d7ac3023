//! Rows of the client as data: the script on standard input says which files there are, what calendars
//! reply, which calls fail and what is run, and the transcript on standard output has what came of it.
//! The expected transcript is another program's, interop/client_rows.py.
//!
//! | line | what it says |
//! |---|---|
//! | `let NAME PIECES` | these bytes have a name, and are `$NAME` in the lines below |
//! | `clear` | there are no files, no nonces and no calendars |
//! | `file NAME PIECES` | there is a file with these bytes |
//! | `nonces PIECES` | the nonces to come, one after the other |
//! | `dial ADDRESS PIECES` | a calendar replies these bytes; conversations take the replies in order |
//! | `shelf N..`, `sink N..` | these calls of the files, or writes of what is printed, fail in the next run |
//! | `dial fails N..`, `nonce fails N..` | these calls of the dialer, or draws of a nonce, fail in it |
//! | `ots WORDS` | the client is run on these words, with the files in memory |
//! | `real WORDS` | the same with real files, which are there while it runs |
//! | `made NAME PIECES` | what the last run made under this name is compared |
//! | `asked N PIECES` | what the last run sent in its conversation N, from 1, is compared |
//! | `each A..B LINE; LINE..` | the lines are read once for each number from A to B, which stands where they have `@` |
//!
//! A piece is hexadecimal digits, as `00ff`; `08*255`, so many times; `{0..9}00`, once for each number, as two bytes
//! and what stands around it; a text in quotes, with `\n`, `\r`, `\\` and `\"`; or `$NAME`, of which `$NAME[..7]` is
//! the prefix. A word is in quotes where it is empty or has spaces. `f{0..9}` is ten words, and so many names.
//!
//! Each line is printed, and below it what came of it. A run prints its text, a line for each file that it made,
//! with its length, one for each that it changed, and then the number that it ends with and whom it asked.
#![tactic(auto)]

mod call;
mod left;
mod run;
mod said;
mod scene;
mod stage;

use crate::scene::Scene;
use std::io;
use std::io::Write;

fn main(rt: HostRuntime) -> io::Result<()> {
    let mut scene = Scene::new(rt.alloc());
    for line in rt.lines(rt.alloc()) {
        let line = line?;
        let said = scene.read(&rt, line.as_str())?;
        io::writer(&rt).write_all(said.as_slice())?;
    }
    Ok(())
}
