ghost use Rattle.std.specs.Prelude.{◌≡◌, ◌≢◌, ◌*◌, ◌<◌, ℕ, length, IfOk, OnErr, IsErrOf, IsTrue};
ghost use Rattle.std.specs.Duration.{as_nanos};
ghost use Rattle.std.specs.Io.{ReadsAtMost, WritesAtMost};
ghost use Rattle.std.specs.Io.KnownBytes.{ReadConsumes, WriteAppends};
ghost use Rattle.ots_base.specs.Cause.{HasCause, HasCauseWhere};
ghost use Rattle.ots_outside.specs.Dialer.{unconnected, is_connected, place_sent, reply_of, Connects};
ghost use Rattle.ots_outside.specs.Dialer.{KeepsConversations, ReplyReads, SameButConnection, SameButSent};
ghost use Rattle.ots_real.specs.Counting.{count_after, count_after_connect};
ghost use Rattle.ots_real.specs.TcpDialer.{dialer_told, dial_faults, dial_limit, link_at, of_stream};
ghost use Rattle.ots_real.specs.TcpDialer.{HasOneLimit};

use crate::conversation::{
    CONNECT_SECONDS, CONVERSATION_SECONDS, ROUND_CONVERSATION_SECONDS, time_left,
};
use crate::{TcpLink, TimeLimit};
use ots_outside::{Count, DialError, Dialer, Failed, Link, Slot};
use std::alloc::Global;
use std::io;
use std::io::ErrorKind;
use std::net::{Net, TcpStream, ToSocketAddrs};
use std::time::{Clock, Duration, Instant};

/// Connections to hosts, each a dotted IPv4 address or a name, which the system's resolver looks
/// up. It tells nothing of replies and of what was sent, and counts each fault.
///
/// Each conversation has one time limit for all its calls, from its connect on, and each address of a host is tried for
/// at most [`CONNECT_SECONDS`]. A name's look-up alone has no limit here but the resolver's own;
/// what it took counts to the conversation.
#[derive(Drop)]
pub struct TcpDialer<R: Net + Clock + Copy> {
    rt: R,
    links: Vec<Option<TcpLink<R, R::Stream>>>,
    limit: Duration,
    faults: Count,
}

impl<R: Net + Clock + Copy> TcpDialer<R> {
    /// A dialer with no slot in use, whose conversations have [`CONVERSATION_SECONDS`].
    pub fn new(rt: R, alloc: Global) -> TcpDialer<R>
        ensures slots { (k : ℕ) → (dialer_told result).slots k ≡ unconnected }
        ensures faults { dial_faults result ≡ 0 }
        ensures limit { as_nanos (dial_limit result) ≡ CONVERSATION_SECONDS * 1_000_000_000 }
    {
        TcpDialer::with_limit(rt, alloc, Duration::from_secs(CONVERSATION_SECONDS))
    }

    /// The same for a gateway's rounds, whose conversations have [`ROUND_CONVERSATION_SECONDS`], since the
    /// clients of a round wait for all of them.
    pub fn for_rounds(rt: R, alloc: Global) -> TcpDialer<R>
        ensures slots { (k : ℕ) → (dialer_told result).slots k ≡ unconnected }
        ensures faults { dial_faults result ≡ 0 }
        ensures limit { as_nanos (dial_limit result) ≡ ROUND_CONVERSATION_SECONDS * 1_000_000_000 }
    {
        TcpDialer::with_limit(rt, alloc, Duration::from_secs(ROUND_CONVERSATION_SECONDS))
    }

    /// A dialer with no slot in use, whose conversations have this limit.
    pub fn with_limit(rt: R, alloc: Global, limit: Duration) -> TcpDialer<R>
        ensures slots { (k : ℕ) → (dialer_told result).slots k ≡ unconnected }
        ensures faults { dial_faults result ≡ 0 }
        ensures limit { dial_limit result ≡ limit }
    {
        TcpDialer {
            rt,
            links: Vec::new(alloc),
            limit,
            faults: Count::new(),
        }
    }

    /// A connection to the first address of the host that answers in time.
    fn dial(&self, host: &str, port: u16) -> io::Result<TcpLink<R, R::Stream>>
        ensures { IfOk result (HasOneLimit (dial_limit self.now)) }
    {
        let began = Instant::now(&self.rt)?;
        let mut last = io::Error::from(ErrorKind::NotFound);
        for address in (host, port).to_socket_addrs(&self.rt)? {
            let passed = began.elapsed(&self.rt)?;
            let Some(left) = time_left(self.limit, passed) else {
                return Err(io::Error::from(ErrorKind::TimedOut));
            };
            let most = left.min(Duration::from_secs(CONNECT_SECONDS));
            match TcpStream::connect_timeout(&self.rt, &address, most) {
                Ok(stream) => {
                    let limit = TimeLimit::since(began, self.limit);
                    return Ok(TcpLink::new(self.rt, stream, limit, limit));
                }
                Err(error) => last = error,
            }
        }
        Err(last)
    }
}

#[tactic(auto, using(crate::proofs::Slots::slots))]
impl<R: Net + Clock + Copy> Dialer for TcpDialer<R> {
    ghost use Rattle.ots_real.specs.TcpDialer.{dialer_told, dial_faults};

    ghost told = { dialer_told };

    ghost faults = { dial_faults };

    fn connect(&mut self, host: &str, port: u16) -> Result<Slot, DialError>
        ensures ok { IfOk result (λ slot. Connects host.now port slot.0 (dialer_told self.old) (dialer_told self.new)) }
        ensures err { OnErr result (KeepsConversations (dialer_told self.old) (dialer_told self.new)) }
        ensures cause { HasCauseWhere (IsErrOf result DialError.Failed) (dial_faults self.old) (dial_faults self.new) }
        ensures counted { dial_faults self.new ≡ count_after_connect (dial_faults self.old) result }
    {
        let Ok(slot) = u32::try_from(self.links.len()) else {
            self.faults.rise();
            return Err(DialError::Failed);
        };
        // The room comes first, so that want of memory begins no conversation.
        if self.links.reserve(1).is_err() {
            return Err(DialError::OutOfMemory);
        }
        match self.dial(host, port) {
            Ok(link) => {
                self.links.push(Some(link)).unwrap();
                Ok(Slot(slot))
            }
            Err(_) => {
                self.faults.rise();
                Err(DialError::Failed)
            }
        }
    }

    fn read(&mut self, slot: Slot, buf: &mut [u8]) -> Result<usize, Failed>
        requires { IsTrue (is_connected ((dialer_told self.old).slots slot.0)) }
        ensures bound { ReadsAtMost result buf.new }
        ensures bytes { ReplyReads (reply_of ((dialer_told self.old).slots slot.0))
            (reply_of ((dialer_told self.new).slots slot.0)) result buf.new }
        ensures stream { ReadConsumes (of_stream R.Stream.remaining (link_at self.old slot.0))
            (of_stream R.Stream.remaining (link_at self.new slot.0)) result buf.new }
        ensures cause { HasCause (dial_faults self.old) (dial_faults self.new) result }
        ensures counted { dial_faults self.new ≡ count_after (dial_faults self.old) result }
        ensures open { IsTrue (is_connected ((dialer_told self.new).slots slot.0)) }
        ensures entry { place_sent ((dialer_told self.new).slots slot.0)
            ≡ place_sent ((dialer_told self.old).slots slot.0) }
        ensures others { SameButConnection slot.0 (dialer_told self.old) (dialer_told self.new) }
        ensures other_links { (k : ℕ) → k ≢ slot.0 → link_at self.new k ≡ link_at self.old k }
    {
        let Some(link) = &mut self.links[slot.0 as usize] else {
            unreachable!()
        };
        match link.read(buf) {
            Ok(count) => Ok(count),
            Err(Failed) => {
                self.faults.rise();
                Err(Failed)
            }
        }
    }

    fn write(&mut self, slot: Slot, piece: &[u8]) -> Result<usize, Failed>
        requires { IsTrue (is_connected ((dialer_told self.old).slots slot.0)) }
        ensures bound { WritesAtMost result piece.now }
        ensures some { 0 < length piece.now → IfOk result (λ count. 0 < count) }
        ensures stream { WriteAppends (of_stream R.Stream.contents (link_at self.old slot.0))
            (of_stream R.Stream.contents (link_at self.new slot.0)) result piece.now }
        ensures cause { HasCause (dial_faults self.old) (dial_faults self.new) result }
        ensures counted { dial_faults self.new ≡ count_after (dial_faults self.old) result }
        ensures others { SameButSent (dialer_told self.old) (dialer_told self.new) }
        ensures other_links { (k : ℕ) → k ≢ slot.0 → link_at self.new k ≡ link_at self.old k }
    {
        let Some(link) = &mut self.links[slot.0 as usize] else {
            unreachable!()
        };
        match link.write(piece) {
            Ok(count) => Ok(count),
            Err(Failed) => {
                self.faults.rise();
                Err(Failed)
            }
        }
    }

    fn close(&mut self, slot: Slot) {
        let at = slot.0 as usize;
        if at + 1 == self.links.len() {
            self.links.pop();
        } else if let Some(link) = self.links.get_mut(at) {
            *link = None;
        }
    }
}
