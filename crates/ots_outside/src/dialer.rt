ghost use Rattle.std.specs.Prelude.{◌≡◌, ◌<◌, ℕ, length, IsTrue, IfOk, OnErr, IsErrOf};
ghost use Rattle.std.specs.Io.{ReadsAtMost, WritesAtMost};
ghost use Rattle.ots_base.specs.Cause.{HasCause, HasCauseWhere};
ghost use Rattle.ots_outside.specs.Dialer.{DialerTold, unconnected, is_connected, reply_of, place_sent, ReplyReads};
ghost use Rattle.ots_outside.specs.Dialer.{SameButConnection, SameButSent, KeepsConversations, Connects, SendsTo};
ghost use Rattle.ots_outside.specs.Dialer.{replies_after};

use crate::{Failed, Slot};

/// Why no conversation was begun.
#[derive(Clone, Copy, Debug, PartialEq, Eq)]
pub enum DialError {
    /// The call failed, and the dialer has counted the fault.
    Failed,
    /// Memory ran out.
    OutOfMemory,
}

/// Conversations with hosts, as over sockets.
///
/// A conversation is begun with a host and a port. What is sent in it is written at its end, and
/// its reply is read once from its start, through a slot of its own until that is closed. A call on
/// one slot leaves what is told of the others.
pub trait Dialer {
    /// What it tells: the replies to come, what was sent, and what each slot is connected to.
    ghost told: { Self → DialerTold };

    /// How often a call has failed. At 2^64 - 1 the count stays.
    ghost faults: { Self → ℕ };

    /// Begins a conversation. It takes the next reply of the list, or the empty one at the list's
    /// end, also where it answers `Failed`; after `OutOfMemory` the replies to come are as before.
    /// After `Ok` that reply is what the slot has left, and what was sent is longer by this host
    /// and port with no bytes. After a refusal what was sent is as before.
    fn connect(&mut self, host: &str, port: u16) -> Result<Slot, DialError>
        ensures ok { IfOk result (λ slot. Connects host.now port slot.0 (told self.old) (told self.new)) }
        ensures err { OnErr result (KeepsConversations (told self.old) (told self.new)) }
        ensures replies { (told self.new).replies ≡ replies_after (told self.old).replies result }
        ensures cause { HasCauseWhere (IsErrOf result DialError.Failed) (faults self.old) (faults self.new) };

    /// Reads what a connected slot has left of its reply, as `Source::read` does.
    fn read(&mut self, slot: Slot, buf: &mut [u8]) -> Result<usize, Failed>
        requires { IsTrue (is_connected ((told self.old).slots slot.0)) }
        ensures bound { ReadsAtMost result buf.new }
        ensures bytes { ReplyReads (reply_of ((told self.old).slots slot.0)) (reply_of ((told self.new).slots slot.0))
            result buf.new }
        ensures cause { HasCause (faults self.old) (faults self.new) result }
        ensures open { IsTrue (is_connected ((told self.new).slots slot.0)) }
        ensures entry { place_sent ((told self.new).slots slot.0) ≡ place_sent ((told self.old).slots slot.0) }
        ensures others { SameButConnection slot.0 (told self.old) (told self.new) };

    /// Writes to what a connected slot has sent, as `Sink::write` does.
    fn write(&mut self, slot: Slot, piece: &[u8]) -> Result<usize, Failed>
        requires { IsTrue (is_connected ((told self.old).slots slot.0)) }
        ensures bound { WritesAtMost result piece.now }
        ensures some { 0 < length piece.now → IfOk result (λ count. 0 < count) }
        ensures bytes { SendsTo (place_sent ((told self.old).slots slot.0)) (told self.old) (told self.new) result
            piece.now }
        ensures cause { HasCause (faults self.old) (faults self.new) result }
        ensures others { SameButSent (told self.old) (told self.new) };

    /// Closes a slot. One that is closed already stays so.
    fn close(&mut self, slot: Slot)
        ensures closed { (told self.new).slots slot.0 ≡ unconnected }
        ensures others { SameButConnection slot.0 (told self.old) (told self.new) }
        ensures faults { faults self.new ≡ faults self.old };
}
