// Runs over a dialer in memory.
use crate::runs::{Run, Task, no_memory};
use crate::stamping::{prove, stamp};
use crate::upgrading::upgrade;
use ots_base::OutOfMemory;
use ots_detached::write_file;
use ots_io::{BytesSink, Dialer, DialerRoom, ScriptDialer, SentTo};
use ots_row_words::{Said, malformed};
use ots_tree::Detached;
use std::alloc::Global;
use std::io;

/// A conversation with each of the most calendars that a list may have.
const CALENDARS: DialerRoom = DialerRoom {
    conversations: 16,
    host_length: 64,
    bytes: 1024,
};

/// How many bytes the file of a proof may have.
const MOST_BYTES: usize = 4096;

/// What calendars reply, in the order of the conversations, and which calls of the dialer fail.
#[derive(Drop)]
pub struct Stage {
    pub replies: Vec<Vec<u8>>,
    pub failing: Vec<u64>,
}

impl Stage {
    /// No calendar replies, and no call fails.
    pub fn new(alloc: Global) -> Stage {
        Stage {
            replies: Vec::new(alloc),
            failing: Vec::new(alloc),
        }
    }
}

/// Does a run, and says what came of each conversation, what was sent in it, and the file of the proof that was made.
pub fn say_run(alloc: Global, stage: &Stage, run: &Run, said: &mut Said) -> io::Result<()> {
    let mut dialer = dialer_of(alloc, stage).map_err(no_memory)?;
    let made = run_over(alloc, &mut dialer, run, said)?;
    say_all_sent(&dialer, said);
    match made {
        Some(proof) => say_file(alloc, &proof, said),
        None => Ok(()),
    }
}

/// The dialer of a run.
fn dialer_of(alloc: Global, stage: &Stage) -> Result<ScriptDialer, OutOfMemory> {
    let mut replies = Vec::new(alloc);
    for reply in &stage.replies {
        replies.push(reply.as_slice())?;
    }
    ScriptDialer::new(alloc, &replies, CALENDARS, &stage.failing)
}

/// A run over any dialer, of whose clauses nothing is carried on: the proof that is made, if one is.
fn run_over<D: Dialer>(
    alloc: Global,
    dialer: &mut D,
    run: &Run,
    said: &mut Said,
) -> io::Result<Option<Detached>> {
    match &run.task {
        Task::Stamp(digest, depth) => {
            stamp(alloc, dialer, &run.calendars, digest, *depth, said).map_err(no_memory)?;
            Ok(None)
        }
        Task::Prove(count, place) => prove(alloc, dialer, &run.calendars, *count, *place, said),
        Task::Upgrade(proof) => {
            let made = upgrade(alloc, dialer, &run.calendars, proof, said).map_err(no_memory)?;
            Ok(Some(made))
        }
    }
}

/// Says what was sent in each conversation.
fn say_all_sent(dialer: &ScriptDialer, said: &mut Said) {
    for place in 0..CALENDARS.conversations as usize {
        if let Some(sent) = dialer.sent(place) {
            say_sent(sent, said);
        }
    }
}

/// Says what was sent in a conversation, and to whom.
fn say_sent(sent: SentTo<'_>, said: &mut Said) {
    said.push("sent");
    said.word(sent.host);
    said.number(u64::from(sent.port));
    said.quoted(sent.bytes);
    said.push("\n");
}

/// Says the file of a proof.
fn say_file(alloc: Global, proof: &Detached, said: &mut Said) -> io::Result<()> {
    let mut sink = BytesSink::new(alloc, MOST_BYTES, &[]).map_err(no_memory)?;
    write_file(proof, &mut sink).map_err(|_| malformed())?;
    said.push("file");
    said.bytes(sink.bytes());
    said.push("\n");
    Ok(())
}
