// Both ends of a connection over loopback, in one process.
use super::callers::{Caller, HEAD, begin, gives_next, takes};
use super::finishing::{sends_on, unread};
use ots_io::{Accepter, Failed, Link, TcpAccepter};
use std::process::Abort;
use std::test::Fail;
use std::thread;
use std::thread::Threads;
use std::time::{Duration, Instant};

/// What is tried over a connection that a caller begins.
#[derive(Clone, Copy)]
pub enum Trial {
    BothWays,
    Lateness,
    Silence,
    Slowness,
    LateReply,
    Unread,
    SendsOn,
}

/// The time limits of a request and a reply, in milliseconds.
#[derive(Clone, Copy)]
pub struct Limits {
    pub request: u64,
    pub reply: u64,
}

/// Workers share an accepter, and take its links to other threads.
fn is_sent<T: Send>(_value: &T) {}

/// Listens on the first free port of a range.
pub fn listen_from<A: Accepter>(accepter: &mut A, base: u16) -> Result<u16, Fail> {
    for more in 0..200 {
        let port = base.saturating_add(more);
        if accepter.listen(port).is_ok() {
            return Ok(port);
        }
    }
    Err(Fail::new("no port is free"))
}

/// The next connection.
pub fn next_link<A: Accepter>(accepter: &mut A) -> Result<A::Link, Fail> {
    match accepter.accept() {
        Ok(Some(link)) => Ok(link),
        Ok(None) | Err(Failed) => Err(Fail::new("no connection")),
    }
}

/// Says that nothing more is written.
pub fn finish<L: Link>(link: &mut L) {
    link.finish();
}

/// Whether a link gives a head, and takes `defgh` in reply.
fn replies<L: Link>(link: &mut L) -> bool {
    let replied = gives_next(link, HEAD) && takes(link, b"defgh");
    link.finish();
    replied
}

/// Whether a read of a link fails.
fn fails_to_read<L: Link>(link: &mut L) -> bool {
    link.read(&mut [0; 4]) == Err(Failed)
}

/// Whether a write to a link fails.
fn fails_to_write<L: Link>(link: &mut L, bytes: &[u8]) -> bool {
    link.write(bytes) == Err(Failed)
}

/// Whether a read and a write of a link fail.
pub fn is_cut_off<L: Link>(link: &mut L) -> bool {
    fails_to_read(link) && fails_to_write(link, b"a")
}

/// How long a read of a link takes that fails; `None` where it doesn't.
fn time_to_fault<L: Link>(rt: &HostRuntime, link: &mut L) -> Result<Option<Duration>, Fail> {
    let began = Instant::now(rt)?;
    let failed = fails_to_read(link);
    let passed = began.elapsed(rt)?;
    Ok(if failed { Some(passed) } else { None })
}

/// How many bytes a link gives before it fails; `None` where it gives as many as `most`.
fn given_before_fault<L: Link>(link: &mut L, most: u64) -> Option<u64> {
    for given in 0..most {
        if link.read(&mut [0]) == Err(Failed) {
            return Some(given);
        }
    }
    None
}

fn both_ways<A: Accepter + Send, R: Threads + Abort>(
    rt: &R,
    host: HostRuntime,
    accepter: &mut A,
    caller: Caller,
) -> Result<(), Fail> {
    let port = listen_from(accepter, 47_200)?;
    let caller = begin(rt, host, port, caller)?;
    let mut link = next_link(accepter)?;
    is_sent(accepter);
    is_sent(&link);
    assert!(rt; replies(&mut link));
    // The caller met the end, and the link is closed while it is still held.
    assert!(rt; caller.join(rt));
    assert!(rt; is_cut_off(&mut link));
    accepter.give_back(link);
    assert_eq!(rt; accepter.accepted(), 1);
    Ok(())
}

fn silence<A: Accepter, R: Threads + Abort>(
    rt: &R,
    host: HostRuntime,
    accepter: &mut A,
) -> Result<(), Fail> {
    let port = listen_from(accepter, 47_400)?;
    let caller = begin(rt, host, port, Caller::IsSilent)?;
    let began = Instant::now(&host)?;
    let mut link = next_link(accepter)?;
    let held = began.elapsed(&host);
    // It was held for the request's time, of which nothing is left.
    let passed = time_to_fault(&host, &mut link);
    accepter.give_back(link);
    let Some(passed) = passed? else {
        return Err(Fail::new("the peer was not cut off"));
    };
    let held = held?;
    assert!(rt; held > Duration::from_millis(250) && held < Duration::from_secs(20));
    assert!(rt; passed < Duration::from_millis(200));
    assert!(rt; caller.join(rt));
    Ok(())
}

fn slowness<A: Accepter, R: Threads + Abort>(
    rt: &R,
    host: HostRuntime,
    accepter: &mut A,
) -> Result<(), Fail> {
    let port = listen_from(accepter, 47_600)?;
    let caller = begin(rt, host, port, Caller::Drips(100))?;
    let mut link = next_link(accepter)?;
    assert!(rt; given_before_fault(&mut link, 100).is_some());
    // It failed, so that it is closed at once.
    finish(&mut link);
    assert!(rt; caller.join(rt));
    accepter.give_back(link);
    Ok(())
}

fn late_reply<A: Accepter, R: Threads + Abort>(
    rt: &R,
    host: HostRuntime,
    accepter: &mut A,
) -> Result<(), Fail> {
    let port = listen_from(accepter, 47_800)?;
    let caller = begin(rt, host, port, Caller::Asks)?;
    let mut link = next_link(accepter)?;
    thread::sleep(&host, Duration::from_millis(400));
    assert!(rt; gives_next(&mut link, HEAD) && takes(&mut link, b"defgh"));
    thread::sleep(&host, Duration::from_millis(400));
    assert!(rt; fails_to_write(&mut link, b"i"));
    finish(&mut link);
    assert!(rt; caller.join(rt));
    accepter.give_back(link);
    Ok(())
}

/// Tries this over the connection that a caller begins.
fn try_accepter<A: Accepter + Send, R: Threads + Abort>(
    rt: &R,
    host: HostRuntime,
    accepter: &mut A,
    trial: Trial,
) -> Result<(), Fail> {
    match trial {
        Trial::BothWays => both_ways(rt, host, accepter, Caller::Asks),
        Trial::Lateness => both_ways(rt, host, accepter, Caller::AsksLate),
        Trial::Silence => silence(rt, host, accepter),
        Trial::Slowness => slowness(rt, host, accepter),
        Trial::LateReply => late_reply(rt, host, accepter),
        Trial::Unread => unread(rt, host, accepter),
        Trial::SendsOn => sends_on(rt, host, accepter),
    }
}

/// The same over loopback, with these limits or those of the system.
pub fn try_over_tcp<R: Threads + Abort>(
    rt: &R,
    host: HostRuntime,
    limits: Option<Limits>,
    trial: Trial,
) -> Result<(), Fail> {
    let mut accepter = match limits {
        Some(limits) => {
            let request = Duration::from_millis(limits.request);
            let reply = Duration::from_millis(limits.reply);
            TcpAccepter::with_limits(&host, host.alloc(), request, reply)
        }
        None => TcpAccepter::new(&host, host.alloc()),
    };
    try_accepter(rt, host, &mut accepter, trial)
}

/// Limits that a test waits for.
const SHORT: Limits = Limits {
    request: 300,
    reply: 300,
};

#[test]
fn bytes_go_both_ways(rt: HostRuntime) -> Result<(), Fail> {
    try_over_tcp(&rt, rt, None, Trial::BothWays)
}

#[test]
fn a_read_that_a_real_socket_cuts_short_is_made_again(rt: HostRuntime) -> Result<(), Fail> {
    try_over_tcp(&rt, rt, None, Trial::Lateness)
}

#[test]
fn a_silent_peer_is_cut_off(rt: HostRuntime) -> Result<(), Fail> {
    try_over_tcp(&rt, rt, Some(SHORT), Trial::Silence)
}

#[test]
fn a_slow_peer_is_cut_off(rt: HostRuntime) -> Result<(), Fail> {
    try_over_tcp(&rt, rt, Some(SHORT), Trial::Slowness)
}

#[test]
fn the_time_of_a_reply_begins_with_its_first_write(rt: HostRuntime) -> Result<(), Fail> {
    let limits = Limits {
        request: 10_000,
        reply: 300,
    };
    try_over_tcp(&rt, rt, Some(limits), Trial::LateReply)
}
