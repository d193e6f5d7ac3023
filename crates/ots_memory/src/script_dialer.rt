ghost use Rattle.std.specs.Prelude.{◌≡◌, ◌<◌, ℕ, [], length, map, min, Some, None, IsTrue, is_err, is_ok, IfOk, OnErr};
ghost use Rattle.std.specs.Prelude.{IsErrOf, MatchOption, if◌then◌else◌, slice_get};
ghost use Rattle.std.specs.Io.{ReadsAtMost, WritesAtMost};
ghost use Rattle.std.specs.Result.{result_err};
ghost use Rattle.ots_base.specs.Cause.{HasCause, HasCauseWhere};
ghost use Rattle.ots_memory.specs.Calls.{is_next_listed, after_call, faults_after};
ghost use Rattle.ots_memory.specs.Conversations.{HasDialerMemory};
ghost use Rattle.ots_outside.specs.Dialer.{unconnected, is_connected, reply_of, place_sent, ReplyReads};
ghost use Rattle.ots_outside.specs.Dialer.{SameButConnection, SameButSent, KeepsConversations, Connects, SendsTo};
ghost use Rattle.ots_outside.specs.Dialer.{replies_after};

use crate::append::is_append_refused;
use crate::calls::Calls;
use crate::conversations::{Conversation, add_conversation, copy_replies, take_reply};
use crate::entries::{Entry, spare_entries};
use crate::{DialerRoom, ShelfRoom};
use ots_base::OutOfMemory;
use ots_outside::{Bytes, Count, DialError, Dialer, Failed, Slot};
use std::alloc::Global;
use std::collections::VecDeque;

/// What was sent in a conversation, and to whom.
#[derive(Clone, Copy, Debug, PartialEq, Eq)]
pub struct SentTo<'a> {
    /// The host, in UTF-8.
    pub host: &'a str,
    /// The port.
    pub port: u16,
    /// The bytes sent so far.
    pub bytes: &'a [u8],
}

/// Conversations that follow a script of replies, in memory that is reserved when the dialer is
/// made.
///
/// A call of `connect`, `read` or `write` fails exactly where its number is listed to fail, or
/// where it passes the room. A slot's number is the place of its conversation among all.
#[derive(Drop)]
pub struct ScriptDialer {
    alloc: Global,
    replies: VecDeque<Bytes>,
    conversations: Vec<Conversation>,
    spare: Vec<Entry>,
    room: DialerRoom,
    calls: Calls,
    faults: Count,
    ghost memory: { HasDialerMemory conversations spare room },
}

impl ScriptDialer {
    ghost use Rattle.ots_memory.specs.ScriptDialer.{tells};

    /// A dialer that gives these replies, and has this room. The calls of the numbers `failing`
    /// fail: `connect`, `read` and `write` are counted together, the first being number 1.
    pub fn new(
        alloc: Global,
        replies: &[&[u8]],
        room: DialerRoom,
        failing: &[u64],
    ) -> Result<ScriptDialer, OutOfMemory>
        ensures replies { IfOk result (λ dialer. (tells dialer).replies ≡ map (λ reply. reply.now) replies.now) }
        ensures sent { IfOk result (λ dialer. (tells dialer).sent ≡ []) }
        ensures slots { IfOk result (λ dialer. (k : ℕ) → (tells dialer).slots k ≡ unconnected) }
        ensures room { IfOk result (λ dialer. (tells dialer).room ≡ room) }
        ensures calls { IfOk result (λ dialer. (tells dialer).calls ≡ record { failing = failing.now; made = 0 }) }
        ensures faults { IfOk result (λ dialer. (tells dialer).faults ≡ 0) }
    {
        let count = room.conversations as usize;
        let memory = ShelfRoom {
            names: count,
            name_length: room.host_length,
            bytes: room.bytes,
            slots: 0,
        };
        Ok(ScriptDialer {
            alloc,
            replies: copy_replies(alloc, replies)?,
            conversations: Vec::with_capacity(alloc, count)?,
            spare: spare_entries(alloc, memory)?,
            room,
            calls: Calls::new(alloc, failing)?,
            faults: Count::new(),
        })
    }

    /// What was sent in the conversation at this place, in the order in which they began, and to
    /// whom.
    pub fn sent(&self, place: usize) -> Option<SentTo<'_>>
        ensures { MatchOption result (slice_get (tells self.now).sent place ≡ None)
            (λ sent. slice_get (tells self.now).sent place ≡ Some
            (record { host = sent.host.now; port = sent.port; bytes = sent.bytes.now })) }
    {
        let conversation = self.conversations.get(place)?;
        Some(SentTo {
            host: &conversation.host,
            port: conversation.port,
            bytes: &conversation.sent,
        })
    }
}

impl Dialer for ScriptDialer {
    ghost use Rattle.ots_memory.specs.ScriptDialer.{tells};
    ghost use Rattle.ots_memory.specs.ScriptDialerTold.{dialer_told, connect_refusal, is_send_refused, reply_bytes};
    ghost use Rattle.ots_memory.specs.ScriptDialerTold.{with_conversation_less};

    ghost told = { λ s. dialer_told (tells s) };

    ghost faults = { λ s. (tells s).faults };

    fn connect(&mut self, host: &str, port: u16) -> Result<Slot, DialError>
        ensures ok { IfOk result (λ slot. Connects host.now port slot.0 (dialer_told (tells self.old))
            (dialer_told (tells self.new))) }
        ensures err { OnErr result (KeepsConversations (dialer_told (tells self.old)) (dialer_told (tells self.new))) }
        ensures replies { (dialer_told (tells self.new)).replies
            ≡ replies_after (dialer_told (tells self.old)).replies result }
        ensures cause { HasCauseWhere (IsErrOf result DialError.Failed) (tells self.old).faults
            (tells self.new).faults }
        ensures refusal { result_err result ≡ connect_refusal (tells self.old) host.now }
        ensures room { (tells self.new).room ≡ (if is_ok result then with_conversation_less (tells self.old).room
            else (tells self.old).room) }
        ensures calls { (tells self.new).calls ≡ after_call (tells self.old).calls }
        ensures faults { (tells self.new).faults ≡ faults_after (tells self.old).faults result }
    {
        let reply = take_reply(self.alloc, &mut self.replies);
        if self.calls.count()
            || self.room.conversations == 0
            || self.room.host_length < host.len()
        {
            self.faults.rise();
            return Err(DialError::Failed);
        }
        let slot = Slot(self.conversations.len() as u32);
        add_conversation(
            &mut self.conversations,
            &mut self.spare,
            self.room,
            host,
            port,
            reply,
        );
        self.room.conversations -= 1;
        Ok(slot)
    }

    fn read(&mut self, slot: Slot, buf: &mut [u8]) -> Result<usize, Failed>
        requires { IsTrue (is_connected ((tells self.old).slots slot.0)) }
        ensures bound { ReadsAtMost result buf.new }
        ensures bytes { ReplyReads (reply_of ((tells self.old).slots slot.0)) (reply_of ((tells self.new).slots slot.0))
            result buf.new }
        ensures cause { HasCause (tells self.old).faults (tells self.new).faults result }
        ensures open { IsTrue (is_connected ((tells self.new).slots slot.0)) }
        ensures entry { place_sent ((tells self.new).slots slot.0) ≡ place_sent ((tells self.old).slots slot.0) }
        ensures others { SameButConnection slot.0 (dialer_told (tells self.old)) (dialer_told (tells self.new)) }
        ensures failed { is_err result ≡ is_next_listed (tells self.old).calls }
        ensures count { IfOk result (λ count. count ≡ min (length (reply_bytes ((tells self.old).slots slot.0)))
            (length buf.old)) }
        ensures room { (tells self.new).room ≡ (tells self.old).room }
        ensures calls { (tells self.new).calls ≡ after_call (tells self.old).calls }
        ensures faults { (tells self.new).faults ≡ faults_after (tells self.old).faults result }
    {
        if self.calls.count() {
            self.faults.rise();
            return Err(Failed);
        }
        match &mut self.conversations[slot.0 as usize].reply {
            Some(reply) => Ok(reply.read(buf)),
            None => unreachable!(),
        }
    }

    fn write(&mut self, slot: Slot, piece: &[u8]) -> Result<usize, Failed>
        requires { IsTrue (is_connected ((tells self.old).slots slot.0)) }
        ensures bound { WritesAtMost result piece.now }
        ensures some { 0 < length piece.now → IfOk result (λ count. 0 < count) }
        ensures bytes { SendsTo (place_sent ((tells self.old).slots slot.0)) (dialer_told (tells self.old))
            (dialer_told (tells self.new)) result piece.now }
        ensures cause { HasCause (tells self.old).faults (tells self.new).faults result }
        ensures others { SameButSent (dialer_told (tells self.old)) (dialer_told (tells self.new)) }
        ensures failed { is_err result ≡ is_send_refused (tells self.old) (place_sent ((tells self.old).slots slot.0))
            piece.now }
        ensures count { IfOk result (λ count. count ≡ length piece.now) }
        ensures room { (tells self.new).room ≡ (tells self.old).room }
        ensures calls { (tells self.new).calls ≡ after_call (tells self.old).calls }
        ensures faults { (tells self.new).faults ≡ faults_after (tells self.old).faults result }
    {
        let at = slot.0 as usize;
        let held = self.conversations[at].sent.len();
        let listed = self.calls.count();
        if is_append_refused(listed, self.room.bytes, held, piece.len()) {
            self.faults.rise();
            return Err(Failed);
        }
        let sent = &mut self.conversations[at].sent;
        sent.extend_from_slice(piece).unwrap();
        Ok(piece.len())
    }

    fn close(&mut self, slot: Slot)
        ensures closed { (tells self.new).slots slot.0 ≡ unconnected }
        ensures others { SameButConnection slot.0 (dialer_told (tells self.old)) (dialer_told (tells self.new)) }
        ensures faults { (tells self.new).faults ≡ (tells self.old).faults }
        ensures room { (tells self.new).room ≡ (tells self.old).room }
        ensures calls { (tells self.new).calls ≡ (tells self.old).calls }
    {
        if let Some(conversation) = self.conversations.get_mut(slot.0 as usize) {
            conversation.reply = None;
        }
    }
}
