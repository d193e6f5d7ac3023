ghost use Rattle.std.specs.Prelude.{◌≡◌, ◌<◌, ◌≤◌, ◌+◌, ℕ, List, [], All, IfOk, drop, length, map, vec_capacity};
ghost use Rattle.ots_memory.specs.Conversations.{AddsConversation};
ghost use Rattle.ots_memory.specs.Entries.{IsSpare};
ghost use Rattle.ots_outside.specs.Dialer.{next_reply};

use crate::DialerRoom;
use crate::entries::Entry;
use crate::input::Input;
use ots_base::OutOfMemory;
use ots_outside::Bytes;
use std::alloc::Global;
use std::collections::VecDeque;

/// A conversation with a host. It has a reply until it is closed.
#[derive(Drop)]
pub struct Conversation {
    pub host: String,
    pub port: u16,
    pub sent: Vec<u8>,
    pub reply: Option<Input>,
}

/// The replies to come, each in memory of its own.
pub fn copy_replies(alloc: Global, replies: &[&[u8]]) -> Result<VecDeque<Bytes>, OutOfMemory>
    ensures { IfOk result (λ copies. copies.items ≡ map (λ reply. reply.now) replies.now) }
{
    let mut copies = VecDeque::new(alloc);
    for reply in replies {
        copies.push_back(Bytes::from_vec(reply.to_vec(alloc)?))?;
    }
    Ok(copies)
}

/// Takes the next reply of the list, or the empty one at the list's end.
pub fn take_reply(alloc: Global, replies: &mut VecDeque<Bytes>) -> Input
    ensures taken { result ≡ record { left = next_reply replies.old.items; given = [] } }
    ensures replies { replies.new.items ≡ drop 1 replies.old.items }
{
    match replies.pop_front() {
        Some(reply) => Input::new(reply.into_vec()),
        None => Input::new(Vec::new(alloc)),
    }
}

/// Adds a conversation, in the memory of a spare entry.
pub fn add_conversation(
    conversations: &mut Vec<Conversation>,
    spare: &mut Vec<Entry>,
    room: DialerRoom,
    host: &str,
    port: u16,
    reply: Input,
)
    requires spare { All (IsSpare room.host_length room.bytes) spare.old.items }
    requires some { 0 < length spare.old.items }
    requires room { length conversations.old.items < vec_capacity conversations.old }
    requires host_fits { length host.now ≤ room.host_length }
    ensures added { AddsConversation conversations.old.items conversations.new.items host.now port reply room.bytes }
    ensures capacity { vec_capacity conversations.old ≤ vec_capacity conversations.new }
    ensures taken { length spare.new.items + 1 ≡ length spare.old.items }
    ensures spare { All (IsSpare room.host_length room.bytes) spare.new.items }
{
    let mut memory = spare.pop().unwrap();
    memory.name.push_str(host).unwrap();
    let conversation = Conversation {
        host: memory.name,
        port,
        sent: memory.bytes,
        reply: Some(reply),
    };
    conversations.push(conversation).unwrap();
}
