// A run of the mirror over objects in memory.
use crate::call::call;
use crate::on::On;
use ots_base::OutOfMemory;
use ots_disk::{Disk, DiskRoom, MemoryDisk};
use ots_io::{BytesSink, Dialer, DialerRoom, ScriptDialer, SentTo};
use std::alloc::Global;

/// How many calls of the disk a run makes, how many bytes it writes at once, and how long the journal becomes.
const DISK_ROOM: DiskRoom = DiskRoom {
    calls: 64,
    write: 8000,
    file: 40_000,
};

/// A conversation for each round.
const CONVERSATIONS: DialerRoom = DialerRoom {
    conversations: 16,
    host_length: 64,
    bytes: 1024,
};

/// How many bytes may be printed.
const TEXT: usize = 4096;

/// What was sent in a conversation, and to whom.
#[derive(Drop)]
pub struct Sent {
    pub host: String,
    pub port: u16,
    pub bytes: Vec<u8>,
}

/// How a run ended: its status, what it printed, and what it sent.
#[derive(Drop)]
pub struct Ended {
    pub status: u8,
    pub text: Vec<u8>,
    pub sent: Vec<Sent>,
}

/// What a run left: how it ended, where the power did not go, whether it called the disk, and the journal.
#[derive(Drop)]
pub struct Left {
    pub ended: Option<Ended>,
    pub called: bool,
    pub journal: Vec<u8>,
}

/// A run of these words on that.
pub fn run_on(alloc: Global, words: &[String], on: &On) -> Result<Left, OutOfMemory> {
    let disk = MemoryDisk::new(alloc, &on.journal, DISK_ROOM, &on.failing.disk)?;
    let (ended, disk) = run_over(alloc, words, on, disk)?;
    left_by(alloc, on, &disk, ended)
}

/// A run over any disk. Each object in memory is made in a function of its own, over any others, so that no function is
/// proved with the clauses of two of them at hand.
fn run_over<D: Disk + Drop>(
    alloc: Global,
    words: &[String],
    on: &On,
    disk: D,
) -> Result<(Ended, D), OutOfMemory> {
    let mut dialer = dialer_of(alloc, on)?;
    let (status, text, disk) = run_asking(alloc, words, on, disk, &mut dialer)?;
    let sent = sent_by(alloc, &dialer)?;
    Ok((Ended { status, text, sent }, disk))
}

/// The number and the text of a run over any disk and dialer, and the disk.
fn run_asking<D: Disk + Drop, T: Dialer>(
    alloc: Global,
    words: &[String],
    on: &On,
    disk: D,
    dialer: &mut T,
) -> Result<(u8, Vec<u8>, D), OutOfMemory> {
    let mut out = BytesSink::new(alloc, TEXT, &on.failing.sink)?;
    let (status, disk) = call(alloc, words, disk, &mut out, dialer);
    Ok((status, out.bytes().to_vec(alloc)?, disk))
}

/// The dialer of a run.
fn dialer_of(alloc: Global, on: &On) -> Result<ScriptDialer, OutOfMemory> {
    let mut replies = Vec::new(alloc);
    for reply in &on.replies {
        replies.push(reply.as_slice())?;
    }
    ScriptDialer::new(alloc, &replies, CONVERSATIONS, &on.failing.dialer)
}

/// What was sent in each conversation.
fn sent_by(alloc: Global, dialer: &ScriptDialer) -> Result<Vec<Sent>, OutOfMemory> {
    let mut all = Vec::new(alloc);
    for place in 0..CONVERSATIONS.conversations as usize {
        if let Some(sent) = dialer.sent(place) {
            all.push(copy_of(alloc, sent)?)?;
        }
    }
    Ok(all)
}

/// A copy of what was sent.
fn copy_of(alloc: Global, sent: SentTo<'_>) -> Result<Sent, OutOfMemory> {
    Ok(Sent {
        host: sent.host.to_string(alloc)?,
        port: sent.port,
        bytes: sent.bytes.to_vec(alloc)?,
    })
}

/// What is left of a run that ended so. Where the power went in one of its calls of the disk or after the last, it is
/// an image of that moment.
fn left_by(alloc: Global, on: &On, disk: &MemoryDisk, ended: Ended) -> Result<Left, OutOfMemory> {
    let calls = disk.calls().len() as u64;
    match on.failing.power {
        Some(call) if call > 0 => Ok(Left {
            ended: None,
            called: calls > 0,
            journal: disk
                .image(call.min(calls + 1), on.choice)?
                .items()
                .to_vec(alloc)?,
        }),
        _ => Ok(Left {
            ended: Some(ended),
            called: calls > 0,
            journal: disk.bytes().to_vec(alloc)?,
        }),
    }
}
