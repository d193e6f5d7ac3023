//! Rows of a calendar's conversations as data: addresses, the messages that are read and written, what a
//! client asks of calendars, and what it makes of their answers. Each line of the script on standard input
//! prepares a question or is one; the transcript on standard output repeats it, and has the answer below.
//! `interop/http_rows.py` makes the transcript that is expected, and runs nothing of this repository.
//!
//! | line | what it says |
//! |---|---|
//! | `# ..` | nothing: what the rows below it show |
//! | `let NAME PIECES` | from here on `$NAME` stands for these bytes |
//! | `addresses PIECES` | the addresses of a list with hosts and ports, or where a bad one stands and if it is https |
//! | `request whole PIECES` | what is read of a request in one piece, and byte by byte |
//! | `request faults PIECES` | the same, and byte by byte where the 1st read fails, the 2nd, and so on |
//! | `request cut N,N.. PIECES` | what is read of it where the reads give so many bytes |
//! | `reply .. PIECES` | the same of a reply |
//! | `write ROOM FAILS text WORDS` | a reply of these words is written to a link that holds ROOM bytes |
//! | `write ROOM FAILS tree PIECES` | a reply with this tree |
//! | `write ROOM FAILS page PIECES` | one with this page of records |
//! | `write ROOM FAILS post ADDRESS PIECES` | a request of a client that posts this digest |
//! | `write ROOM FAILS get ADDRESS PIECES` | one that asks for the timestamp of this message |
//! | `write ROOM FAILS records ADDRESS N` | one that asks for the records from this number on |
//! | `clear` | no calendar replies |
//! | `dial PIECES` | one more calendar replies this |
//! | `fails N..` | these calls of the dialer fail in the next run: it connects, writes or reads |
//! | `stamp ADDRESSES DEPTH PIECES` | this digest is posted, and the answers are to stand below so many operations |
//! | `prove ADDRESSES N I` | the root of the first N files is posted, and file I, from 0, has its proof |
//! | `upgrade ADDRESSES PIECES` | calendars are asked to complete the proof of this file |
//! | `batch N` | how many operations may stand above the root of the first N files, and that |
//!
//! The write of number FAILS fails, none for 0. File n has the text `file n`, and the sixteen numbers from
//! 16 n on as its nonce. A run is answered by what came of each conversation, in `upgrade` after its message and
//! URI, by what was sent in each, and by the file of the proof that is made.
#![tactic(auto)]

mod addresses;
mod dialing;
mod outcomes;
mod reading;
mod reads;
mod replies;
mod runs;
mod script;
mod stamping;
mod upgrading;
mod writing;

use crate::script::Script;
use ots_row_words::Said;
use std::alloc::AllocError;
use std::io;

fn main(rt: HostRuntime) -> io::Result<()> {
    let alloc = rt.alloc();
    let mut script = Script::new(alloc);
    let mut said = Said::new(alloc);
    for line in rt.lines(alloc) {
        script.obey(alloc, line?.as_str(), &mut said)?;
        rt.print(said.text().ok_or(AllocError)?)?;
        said.clear();
    }
    Ok(())
}
