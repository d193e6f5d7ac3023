//! Rows of a gateway as data. The script on standard input says which links come in and what each sends, which
//! nonces are drawn, what the calendars reply, which calls fail and what is run; the transcript on standard
//! output repeats each line, and has what came of it below. `interop/gateway_rows.py` makes the transcript that
//! is expected, and runs nothing of this repository.
//!
//! | line | what it says |
//! |---|---|
//! | `# ..` | nothing: what the rows below it show |
//! | an empty one | all is put back but the named bytes: no link, no nonce, no reply |
//! | `let NAME PIECES` | these bytes have a name, and are `$NAME` in the lines below |
//! | `link PIECES` | one link more, and what it sends |
//! | `links N PIECES` | so many links more, each of which sends this |
//! | `nonces PIECES` | the nonces that each run draws, one after the other, 16 bytes each |
//! | `reply PIECES` | one reply more; the conversations of each run take the replies in order |
//! | `OBJECT fails N..` | these of its calls fail in the next run |
//! | `otsgate WORDS` | a run; `""` is the empty word |
//! | `took N PIECES` | asks whether the Nth link that the last run gave back has taken these bytes |
//! | `sent N PIECES` | asks whether the last run sent these bytes in its Nth conversation |
//! | `each OBJECT N` | begins a block of lines, up to the line `end` |
//!
//! An object is the `accepter`, the `dialer`, the `nonces`, the `sink`, or `link` with its number after it, of
//! which the first is 1, as is the first call of an object. A piece is as `ots_row_words` has it. Links, nonces and
//! replies are those of each run up to the next empty line. A block is done N times: in its first run the first
//! call of the object fails, then the second, up to the Nth, which may be more than there are. What came of several
//! calls side by side is told once, where it was the same.
//!
//! A run is told by what it printed, its status, how many links were accepted, were given back and are still to
//! come, what each link has taken that was given back, and for each conversation the host, the port and what was
//! sent. Of more than 32 links it is told what they have taken in all, one after the other. Want of memory is no row.
#![tactic(auto)]

mod call;
mod each;
mod links;
mod on;
mod run;
mod scene;
mod script;
mod told;

use crate::script::Script;
use ots_row_words::Said;
use std::alloc::AllocError;
use std::io;

fn main(rt: HostRuntime) -> io::Result<()> {
    let alloc = rt.alloc();
    let mut script = Script::new(alloc);
    let mut said = Said::new(alloc);
    for line in rt.lines(alloc) {
        script.obey(&rt, alloc, line?.as_str(), &mut said)?;
        rt.print(said.text().ok_or(AllocError)?)?;
        said.clear();
    }
    Ok(())
}
