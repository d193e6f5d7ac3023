ghost use Rattle.std.specs.Prelude.{◌≡◌, ◌*◌, ◌||◌, false, is_ok, IfOk, IsSome};
ghost use Rattle.std.specs.Duration.{as_nanos};
ghost use Rattle.ots_base.specs.Cause.{HasCause};
ghost use Rattle.ots_outside.specs.Accepter.{IfAccepted, accepted_after};
ghost use Rattle.ots_real.specs.Counting.{count_after};
ghost use Rattle.ots_real.specs.Sockets.{accept_count, accept_faults, is_listening, link_faults, read_limit};
ghost use Rattle.ots_real.specs.Sockets.{reply_limit, request_limit, write_limit};
ghost use Rattle.ots_real.specs.TimeLimit.{BeganWithin, IsUnbegun};

use crate::accept_error::AcceptError;
use crate::ahead::Ahead;
use crate::conversation::{LISTEN_QUEUE, REPLY_SECONDS, REQUEST_SECONDS};
use crate::held::{Held, Spoken, most_held, wait_for_one};
use crate::inherited::Inherited;
use crate::tcp_link::Drained;
use crate::{TcpLink, TimeLimit};
use ots_outside::{Accepter, Count, Failed};
use std::alloc::Global;
use std::io::ErrorKind;
use std::net::{Ipv4Addr, Net, OpenListener, TcpListener};
use std::os::fd::AsRawFd;
use std::time::{Clock, Duration, Instant};
use std::{io, thread};

/// How many tries of one accept may fail in a row, before that is a fault.
const MAX_TRIES: u32 = 65_536;

/// How long an accept waits before it tries again, where file descriptors, buffers or memory are
/// short, in milliseconds: long enough to spare the processor, and short beside a conversation.
const SHORTNESS_PAUSE: u64 = 10;

/// The most seconds that an accept waits in all for a shortness to end, before that is a fault. This
/// is more than a request, its reply and the closing of a link take together, after which peers that
/// send and take nothing have given their descriptors back. The limit is this project's.
const SHORTNESS_SECONDS: u64 = 30;

/// How many connections are taken at most that came together, before those that are held are looked at
/// again: each look is at all of them.
const MAX_TAKEN: usize = 256;

/// The pauses of that time.
const MAX_PAUSES: u64 = SHORTNESS_SECONDS * 1_000 / SHORTNESS_PAUSE;

/// Connections to any of this machine's IPv4 addresses: what is served here is meant for everyone.
/// Where that is not wanted, a firewall or a proxy stands before it. It tells no list, and is never
/// at its end.
///
/// A connection that is lost while it is taken is passed over and is no fault. Where file
/// descriptors, buffers or memory are short it waits for other connections to give them back, and
/// counts a fault only after [`SHORTNESS_SECONDS`] of that in a row.
///
/// **A connection is held until it has spoken**, so that one which says nothing takes no worker: until
/// the head of a request has come, its end, or an error; at most for the time of a request, and while
/// there are descriptors for others, else the oldest is handed out as if its time were over. It counts
/// as accepted when it is handed out. Holding is done inside `accept`.
///
/// Each connection has one time limit for its request, which begins when the system accepts it, and
/// one for the reply, which begins with our first write, so that a peer that sends or takes nothing, or
/// hardly anything, is cut off. What has come is read also after the limit.
#[derive(Drop)]
pub struct TcpAccepter<R: Net + Clock + Copy> {
    rt: R,
    listener: Option<R::Listener>,
    held: Held<R::Stream>,
    served: usize,
    inherited: Inherited,
    drained: Drained,
    request_limit: Duration,
    reply_limit: Duration,
    accepted: Count,
    faults: Count,
}

impl<R: Net + Clock + Copy> TcpAccepter<R> {
    /// An accepter that doesn't listen yet, whose requests have [`REQUEST_SECONDS`] and whose
    /// replies have [`REPLY_SECONDS`].
    pub fn new(rt: R, alloc: Global) -> TcpAccepter<R>
        ensures accepted { accept_count result ≡ 0 }
        ensures faults { accept_faults result ≡ 0 }
        ensures request { as_nanos (request_limit result) ≡ REQUEST_SECONDS * 1_000_000_000 }
        ensures reply { as_nanos (reply_limit result) ≡ REPLY_SECONDS * 1_000_000_000 }
        ensures listening { is_listening result ≡ false }
    {
        let request = Duration::from_secs(REQUEST_SECONDS);
        let reply = Duration::from_secs(REPLY_SECONDS);
        TcpAccepter::with_limits(rt, alloc, request, reply)
    }

    /// The same for a server of rounds, each of which finishes all its links and then gives them back:
    /// what their peers still send is dropped when they are given back, in the same second for all.
    pub fn for_rounds(rt: R, alloc: Global) -> TcpAccepter<R>
        ensures accepted { accept_count result ≡ 0 }
        ensures faults { accept_faults result ≡ 0 }
        ensures request { as_nanos (request_limit result) ≡ REQUEST_SECONDS * 1_000_000_000 }
        ensures reply { as_nanos (reply_limit result) ≡ REPLY_SECONDS * 1_000_000_000 }
        ensures listening { is_listening result ≡ false }
    {
        let mut accepter = TcpAccepter::new(rt, alloc);
        accepter.drained = Drained::WhenGivenBack;
        accepter
    }

    /// An accepter that doesn't listen yet, whose requests and replies have these limits.
    pub fn with_limits(rt: R, alloc: Global, request: Duration, reply: Duration) -> TcpAccepter<R>
        ensures accepted { accept_count result ≡ 0 }
        ensures faults { accept_faults result ≡ 0 }
        ensures request { request_limit result ≡ request }
        ensures reply { reply_limit result ≡ reply }
        ensures listening { is_listening result ≡ false }
    {
        TcpAccepter {
            rt,
            listener: None,
            held: Held::new(alloc),
            served: 0,
            inherited: Inherited::No,
            drained: Drained::AtOnce,
            request_limit: request,
            reply_limit: reply,
            accepted: Count::new(),
            faults: Count::new(),
        }
    }

    /// A link over a connection that has spoken.
    fn link(&self, spoken: Spoken<R::Stream>) -> TcpLink<R, Ahead<R::Stream>>
        ensures fresh { link_faults result ≡ 0 }
        ensures request { BeganWithin (request_limit self.now) (read_limit result) }
        ensures reply { IsUnbegun (reply_limit self.now) (write_limit result) }
    {
        let mut reads = if spoken.is_over {
            TimeLimit::over(spoken.began)
        } else {
            TimeLimit::since(spoken.began, self.request_limit)
        };
        let mut writes = TimeLimit::new(self.reply_limit);
        if let Some(timeout) = self.inherited.timeout() {
            reads.set_timeout(timeout);
            writes.set_timeout(timeout);
        }
        TcpLink::accepted(self.rt, spoken.stream, reads, writes, self.drained)
    }
}

/// The next connection that has spoken, with as many served already.
fn next_spoken<L: OpenListener + AsRawFd>(
    clock: &impl Clock,
    listener: &L,
    held: &mut Held<L::Stream>,
    limit: Duration,
    served: usize,
) -> io::Result<Spoken<L::Stream>>
where
    L::Stream: AsRawFd,
{
    for _ in 0..u64::MAX {
        if let Some(spoken) = held.ready() {
            return Ok(spoken);
        }
        let found = if held.is_empty() {
            // Nothing else can happen.
            let stream = next_stream(clock, listener)?;
            held.hold(stream, Instant::now(clock)?)
        } else {
            let comes = held.wait(listener, limit, Instant::now(clock)?);
            match held.sort(limit, Instant::now(clock)?) {
                None if comes => take_those_that_came(clock, listener, held, served)?,
                found => found,
            }
        };
        if let Some(spoken) = found {
            return Ok(spoken);
        }
    }
    Err(io::Error::from(ErrorKind::TimedOut))
}

/// Takes the connections that have come, at most [`MAX_TAKEN`] of them, and holds them: one that is to be
/// served at once, if there is one.
fn take_those_that_came<L: OpenListener>(
    clock: &impl Clock,
    listener: &L,
    held: &mut Held<L::Stream>,
    served: usize,
) -> io::Result<Option<Spoken<L::Stream>>>
where
    L::Stream: AsRawFd,
{
    let most = most_held(served);
    if held.has(most) {
        return Ok(held.evict(Instant::now(clock)?));
    }
    listener.set_nonblocking(true)?;
    let taken = take_several(clock, listener, held, most);
    listener.set_nonblocking(false)?;
    taken
}

/// The same from a listener that waits for nothing, up to so many that are held. Where the system is short,
/// the oldest that is held is to be served.
fn take_several<L: OpenListener>(
    clock: &impl Clock,
    listener: &L,
    held: &mut Held<L::Stream>,
    most: usize,
) -> io::Result<Option<Spoken<L::Stream>>>
where
    L::Stream: AsRawFd,
{
    for _ in 0..MAX_TAKEN {
        if held.has(most) {
            return Ok(None);
        }
        let error = match listener.accept() {
            Ok((stream, _)) => {
                let spoken = held.hold(stream, Instant::now(clock)?);
                if let Some(spoken) = spoken.and_then(|spoken| held.put(spoken)) {
                    return Ok(Some(spoken));
                }
                continue;
            }
            Err(error) => error,
        };
        if error.kind() == ErrorKind::WouldBlock {
            return Ok(None);
        }
        match AcceptError::of(&error) {
            AcceptError::OfOneConnection => {}
            AcceptError::Short => return Ok(held.evict(Instant::now(clock)?)),
            AcceptError::Other => return Err(error),
        }
    }
    Ok(None)
}

/// The next connection that isn't lost while it is taken.
fn next_stream<L: OpenListener + AsRawFd>(
    clock: &impl Clock,
    listener: &L,
) -> io::Result<L::Stream> {
    let mut pauses = 0;
    for _ in 0..MAX_TRIES {
        let error = match listener.accept() {
            Ok((stream, _)) => return Ok(stream),
            Err(error) => error,
        };
        match AcceptError::of(&error) {
            AcceptError::OfOneConnection => {
                pauses = 0;
                if error.kind() == ErrorKind::WouldBlock {
                    // The timeout that connections inherit ended the call.
                    wait_for_one(listener);
                }
            }
            AcceptError::Short if pauses < MAX_PAUSES => {
                pauses += 1;
                thread::sleep(clock, Duration::from_millis(SHORTNESS_PAUSE));
            }
            AcceptError::Short | AcceptError::Other => return Err(error),
        }
    }
    Err(io::Error::from(ErrorKind::ConnectionAborted))
}

impl<R: Net + Clock + Copy + Send> Accepter for TcpAccepter<R>
where
    R::Stream: Send,
{
    type Link = TcpLink<R, Ahead<R::Stream>>;

    ghost use Rattle.std.specs.Prelude.{None};
    ghost use Rattle.ots_real.specs.Sockets.{accept_count, accept_faults};

    ghost coming = { λ accepter. None };

    ghost returned = { λ accepter. None };

    ghost accepted = { accept_count };

    ghost faults = { accept_faults };

    fn listen(&mut self, port: u16) -> Result<(), Failed>
        ensures listening { is_listening self.new ≡ (is_ok result || is_listening self.old) }
        ensures request_stays { request_limit self.new ≡ request_limit self.old }
        ensures reply_stays { reply_limit self.new ≡ reply_limit self.old }
        ensures accepted { accept_count self.new ≡ accept_count self.old }
        ensures cause { HasCause (accept_faults self.old) (accept_faults self.new) result }
        ensures counted { accept_faults self.new ≡ count_after (accept_faults self.old) result }
    {
        match TcpListener::bind(&self.rt, (Ipv4Addr::UNSPECIFIED, port)) {
            Ok(listener) => {
                // A second listen(2) on the socket lengthens the queue of 128 that std asks for. Where it
                // fails the socket listens all the same.
                libc::net::listen(listener.as_raw_fd(), LISTEN_QUEUE);
                self.inherited = Inherited::asked_of(&listener);
                self.listener = Some(listener);
                Ok(())
            }
            Err(_) => {
                self.faults.rise();
                Err(Failed)
            }
        }
    }

    fn accept(&mut self) -> Result<Option<TcpLink<R, Ahead<R::Stream>>>, Failed>
        ensures some { IfOk result IsSome }
        ensures fresh { IfAccepted result (λ link. link_faults link ≡ 0) }
        ensures request { IfAccepted result (λ link. BeganWithin (request_limit self.old) (read_limit link)) }
        ensures reply { IfAccepted result (λ link. IsUnbegun (reply_limit self.old) (write_limit link)) }
        ensures request_stays { request_limit self.new ≡ request_limit self.old }
        ensures reply_stays { reply_limit self.new ≡ reply_limit self.old }
        ensures accepted { accept_count self.new ≡ accepted_after (accept_count self.old) result }
        ensures cause { HasCause (accept_faults self.old) (accept_faults self.new) result }
        ensures counted { accept_faults self.new ≡ count_after (accept_faults self.old) result }
    {
        let Some(listener) = &self.listener else {
            self.faults.rise();
            return Err(Failed);
        };
        let limit = self.request_limit;
        match next_spoken(&self.rt, listener, &mut self.held, limit, self.served) {
            Ok(spoken) => {
                self.inherited.see(&spoken.stream);
                self.accepted.rise();
                self.served = self.served.saturating_add(1);
                Ok(Some(self.link(spoken)))
            }
            Err(_) => {
                self.faults.rise();
                Err(Failed)
            }
        }
    }

    fn give_back(&mut self, link: TcpLink<R, Ahead<R::Stream>>) {
        self.served = self.served.saturating_sub(1);
        link.drain(self.rt);
    }

    fn accepted(&self) -> u64 {
        self.accepted.value()
    }
}
