//! Rows of a mirror as data. The script on standard input says what the journal's file holds and what the
//! calendar replies, which calls fail, when the power goes and what is run; the transcript on standard output
//! repeats each line, and has what came of it below. `interop/mirror_rows.py` makes the transcript that is
//! expected, and runs nothing of this repository.
//!
//! | line | what it says |
//! |---|---|
//! | `# ..` | nothing: what the rows below it show |
//! | an empty one | all is put back but the named bytes: a file without a byte, no reply, writes that are dropped |
//! | `let NAME PIECES` | these bytes have a name, and are `$NAME` in the lines below |
//! | `journal PIECES` | what the journal's file holds |
//! | `reply PIECES` | one reply more; the conversations of each run take the replies in order |
//! | `clear` | no reply is to come any more |
//! | `OBJECT fails N..` | these calls of the `disk`, the `dialer` or the `sink` fail in the next run |
//! | `power fails N` | the power goes in the disk's call N of the next run, or after the last where it makes fewer |
//! | `leaves CHOICE` | what it then leaves of the writes that no sync has made durable |
//! | `mirror WORDS` | a run; `""` is the empty word |
//! | `keep` | the journal's file is what the last run left |
//! | `left PIECES` | asks whether the last run left these bytes |
//! | `each OBJECT N` | begins a block of lines, up to the line `end` |
//!
//! The first call of an object is 1. CHOICE is `dropped`, `kept`, or the byte that stands in place of each that was
//! written. A piece is as `ots_row_words` has it. A block is done N times, each from the same journal: in its first run
//! the first call of the object fails, then the second, up to the Nth, which may be more than there are. What came of
//! several calls side by side is told once, where it was the same.
//!
//! A run is told by what it printed, its status, whether it called the disk, how many bytes it left, and for each
//! conversation the host, the port and the first line of what was sent. Of one in which the power went only what it
//! left is told.
#![tactic(auto)]

mod call;
mod each;
mod on;
mod run;
mod scene;
mod script;
mod told;

use crate::script::Script;
use ots_row_words::Said;
use std::alloc::AllocError;
use std::io;

fn main(rt: HostRuntime) -> io::Result<()> {
    let alloc = rt.alloc();
    let mut script = Script::new(alloc);
    let mut said = Said::new(alloc);
    for line in rt.lines(alloc) {
        script.obey(alloc, line?.as_str(), &mut said)?;
        rt.print(said.text().ok_or(AllocError)?)?;
        said.clear();
    }
    Ok(())
}
