//! Rows of the calendar as data. The script on standard input says what the journal, the files and
//! the connections hold, which calls fail and what is run; the transcript on standard output repeats
//! each line, and has what came of it below. `interop/calendar_rows.py` makes the transcript that is
//! expected, and runs nothing of this repository.
//!
//! | line | what it says |
//! |---|---|
//! | `# ..` | nothing: what the rows below it show |
//! | an empty one | all is put back but the named bytes: an empty journal in memory, no file, no nonce, second 0 |
//! | `let NAME BYTES` | names bytes |
//! | `text NAME TEXT` | names the bytes of a text, in which `\r` and `\n` stand for the ends of lines |
//! | `journal BYTES`, `nonces BYTES`, `second N` | what the runs below it are done on |
//! | `file NAME BYTES` | puts a file on the shelf |
//! | `disk file`, `disk memory` | the journal lies on a device under a file, or in memory |
//! | `room N` | the sink takes so many bytes |
//! | `link BYTES` | one connection more in the next run, and what it sends |
//! | `OBJECT fails N..` | these of its calls fail in the next run; `link` is the last one |
//! | `quiet` | what the next run prints is not repeated |
//! | `otsd WORDS` | a run; `''` is the empty word |
//! | `keep` | the journal is what the last run left |
//! | `left BYTES` | asks whether the last run left a journal of these bytes |
//! | `prefix` | asks whether the last run printed some of what the run before printed, from its start, and not all |
//! | `each OBJECT N` | begins a block of lines, up to the line `end` |
//!
//! An object is the `disk`, the `shelf`, the `sink`, the `nonce`s, the `accept`er or a `link`, and its
//! first call is 1. BYTES are words: hexadecimal digits, `$NAME`, or either with `*N` after it for so
//! many times. A block is done N times, and in its first run the first call of the object fails, then
//! the second, up to the Nth, which may be more than there are. What came of several calls side by
//! side is told once, where it was the same.
#![tactic(auto)]

mod call;
mod objects;
mod on;
mod run;
mod scene;
mod script;
mod spelling;
mod transcript;

use crate::script::Script;
use ots_io::OutOfMemory;
use std::alloc::AllocError;
use std::io;
use std::io::Write;

fn main(rt: HostRuntime) -> io::Result<()> {
    let mut script = Script::new(rt.alloc());
    for line in rt.lines(rt.alloc()) {
        let line = line?;
        match script.obey(&rt, line.as_str()) {
            Ok(said) => io::writer(&rt).write_all(said.as_slice())?,
            Err(OutOfMemory) => return Err(io::Error::from(AllocError)),
        }
    }
    Ok(())
}
