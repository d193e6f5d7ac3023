//! Rows of the journal and of the store as data. The script on standard input says what a disk holds,
//! which of its calls fail, and what is asked of a journal or a store on it; the transcript on
//! standard output repeats each line, and has what came of it below. `interop/store_rows.py` makes
//! the transcript that is expected, and runs nothing of this repository.
//!
//! An empty line ends what is said of a disk: the next one is new, in memory, without a byte.
//!
//! | line | what it says |
//! |---|---|
//! | `# ..` | nothing: what the rows below it show |
//! | `let NAME WORDS` | from here on `$NAME` stands for these words |
//! | `disk BYTES`, `fails N..` | what the disk holds, and which of its calls fail |
//! | `limit N`, `room CALLS WRITE FILE` | how long the journal may be, and how much the disk can do |
//! | `write PLACE BYTES`, `read PLACE COUNT`, `length`, `sync` | a call of the disk itself, before it is opened |
//! | `faults` | how often the disk has failed, before it is opened |
//! | `journal`, `store` | opens the disk as one; again, where one was open on it |
//! | `left BYTES`, `calls N` | asks whether the disk holds these bytes; its calls from this one on |
//! | `images journal FROM TO CHOICE..`, or `store` | the images of a crash in these calls but the last, as told below |
//! | `images bytes FROM TO CHOICE..` | the bytes of these images |
//! | `version1 BYTES` | the entries of a journal of version 1 |
//!
//! | line after `journal` | what is asked |
//! |---|---|
//! | `append KIND BYTES`, `group ENTRIES`, `reserve ENTRIES BYTES`, `refresh` | the call of this name |
//! | `each ENTRIES` | `append` of each by itself |
//! | `state` | whether it is sure, its gate, how many entries and faults there are |
//! | `entry N`, `entries ENTRIES` | an entry; whether all are these |
//!
//! | line after `store` | what is asked |
//! |---|---|
//! | `commit BYTES`, `tip FIRST COUNT BYTES` | the call of this name, where it may be made |
//! | `anchor FIRST COUNT HEIGHT BYTES`, `group ENTRIES`, `reserve`, `refresh` | the same |
//! | `bad ENTRIES` | the first of these that may not follow |
//! | `commits BYTES`, `indexes BYTES` | `commit` or `index` of 44 bytes of each value |
//! | `index BYTES`, `covering N` | the index of a commitment, the anchor that covers an index |
//! | `heights N` | the heights of the anchors that cover the indexes below N |
//! | `state`, `entry N`, `commitment N`, `commitments ENTRIES`, `tips` | what it holds |
//!
//! BYTES are words: hexadecimal digits, or `xx*N` for a byte that stands so many times. ENTRIES are
//! `KIND BYTES`, each but the last with a semicolon after it. CHOICE is `dropped`, `kept`, or the byte
//! that fills what was not durable. `images` tells of each image how many entries it has, and how many
//! with one more when it is opened once more.
#![tactic(auto)]

mod bare;
mod crash;
mod journal;
mod lines;
mod memory;
mod names;
mod open;
mod records;
mod run;
mod scene;
mod spelling;
mod start;
mod store;
mod told;
mod transcript;

use crate::scene::Scene;
use ots_base::OutOfMemory;
use std::alloc::AllocError;
use std::io;
use std::io::{BufRead, BufReader};

fn main(rt: HostRuntime) -> io::Result<()> {
    let alloc = rt.alloc();
    let mut scene = Scene::new(alloc);
    for line in BufReader::new(alloc, rt.reader())?.lines(alloc) {
        let line = line?;
        let Ok(said) = scene.obey(alloc, line.as_str()) else {
            return Err(io::Error::from(AllocError));
        };
        rt.print(said)?;
    }
    match scene.end(alloc) {
        Ok(said) => rt.print(said),
        Err(OutOfMemory) => Err(io::Error::from(AllocError)),
    }
}
