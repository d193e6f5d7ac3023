// A run of the gateway over objects in memory.
use crate::call::call;
use crate::links::{Links, accepter_of, links_after};
use crate::on::On;
use ots_base::OutOfMemory;
use ots_io::{Accepter, BytesSink, Dialer, DialerRoom, ListNonces, ScriptDialer, SentTo};
use std::alloc::Global;
use std::sync::Wait;

/// A conversation for each calendar of each round.
const CONVERSATIONS: DialerRoom = DialerRoom {
    conversations: 64,
    host_length: 64,
    bytes: 1024,
};

/// How many bytes may be printed.
const TEXT: usize = 16_384;

/// What was sent in a conversation, and to whom.
#[derive(Drop)]
pub struct Sent {
    pub host: String,
    pub port: u16,
    pub bytes: Vec<u8>,
}

/// How a run ended: its status, what it printed, what came of its links, and what it sent.
#[derive(Drop)]
pub struct Ended {
    pub status: u8,
    pub text: Vec<u8>,
    pub links: Links,
    pub sent: Vec<Sent>,
}

impl Ended {
    /// What the link at this place `took`, among those that were given back, or what was `sent` in the conversation
    /// there.
    pub fn bytes(&self, word: &str, place: usize) -> Option<&[u8]> {
        match word {
            "took" => Some(self.links.taken.get(place)?.as_slice()),
            _ => Some(self.sent.get(place)?.bytes.as_slice()),
        }
    }
}

/// A run of these words on that. Each object in memory is made in a function of its own, over any others, so that no
/// function is proved with the clauses of two of them at hand.
pub fn run_on<R: Wait>(
    rt: &R,
    alloc: Global,
    words: &[String],
    on: &On,
) -> Result<Ended, OutOfMemory> {
    let mut accepter = accepter_of(alloc, on)?;
    let (status, text, sent) = run_accepting(rt, alloc, words, on, &mut accepter)?;
    Ok(Ended {
        status,
        text,
        links: links_after(alloc, &accepter)?,
        sent,
    })
}

/// The number and the text of a run over any accepter, and what it sent.
fn run_accepting<A: Accepter, R: Wait>(
    rt: &R,
    alloc: Global,
    words: &[String],
    on: &On,
    accepter: &mut A,
) -> Result<(u8, Vec<u8>, Vec<Sent>), OutOfMemory> {
    let mut dialer = dialer_of(alloc, on)?;
    let (status, text) = run_asking(rt, alloc, words, on, accepter, &mut dialer)?;
    Ok((status, text, sent_by(alloc, &dialer)?))
}

/// The number and the text of a run over any accepter and dialer.
fn run_asking<A: Accepter, T: Dialer, R: Wait>(
    rt: &R,
    alloc: Global,
    words: &[String],
    on: &On,
    accepter: &mut A,
    dialer: &mut T,
) -> Result<(u8, Vec<u8>), OutOfMemory> {
    let mut nonces = ListNonces::new(alloc, &on.nonces, &on.failing.nonces)?;
    let mut out = BytesSink::new(alloc, TEXT, &on.failing.sink)?;
    let status = call(rt, alloc, words, accepter, dialer, &mut nonces, &mut out);
    Ok((status, out.bytes().to_vec(alloc)?))
}

/// The dialer of a run.
fn dialer_of(alloc: Global, on: &On) -> Result<ScriptDialer, OutOfMemory> {
    let mut replies = Vec::new(alloc);
    for reply in &on.replies {
        replies.push(reply.as_slice())?;
    }
    ScriptDialer::new(alloc, &replies, CONVERSATIONS, &on.failing.dialer)
}

/// What was sent in each conversation.
fn sent_by(alloc: Global, dialer: &ScriptDialer) -> Result<Vec<Sent>, OutOfMemory> {
    let mut all = Vec::new(alloc);
    for place in 0..CONVERSATIONS.conversations as usize {
        if let Some(sent) = dialer.sent(place) {
            all.push(copy_of(alloc, sent)?)?;
        }
    }
    Ok(all)
}

/// A copy of what was sent.
fn copy_of(alloc: Global, sent: SentTo<'_>) -> Result<Sent, OutOfMemory> {
    Ok(Sent {
        host: sent.host.to_string(alloc)?,
        port: sent.port,
        bytes: sent.bytes.to_vec(alloc)?,
    })
}
