// Links that are finished while their peers still send, over loopback.
use super::callers::{Caller, REPLY, begin, takes};
use super::sockets::{Trial, finish, is_cut_off, listen_from, next_link, try_over_tcp};
use ots_io::{Accepter, Link};
use std::process::Abort;
use std::test::Fail;
use std::thread::Threads;
use std::time::{Duration, Instant};

/// Whether a link takes the whole reply.
fn takes_reply<L: Link>(link: &mut L) -> bool {
    takes(link, &[0; REPLY])
}

pub fn unread<A: Accepter, R: Threads + Abort>(
    rt: &R,
    host: HostRuntime,
    accepter: &mut A,
) -> Result<(), Fail> {
    let port = listen_from(accepter, 48_000)?;
    let caller = begin(rt, host, port, Caller::SendsMuch)?;
    let mut link = next_link(accepter)?;
    assert!(rt; takes_reply(&mut link));
    finish(&mut link);
    assert!(rt; caller.join(rt));
    accepter.give_back(link);
    Ok(())
}

/// How long it takes to finish a link.
fn time_to_finish<L: Link>(rt: &HostRuntime, link: &mut L) -> Result<Duration, Fail> {
    let began = Instant::now(rt)?;
    link.finish();
    Ok(began.elapsed(rt)?)
}

pub fn sends_on<A: Accepter, R: Threads + Abort>(
    rt: &R,
    host: HostRuntime,
    accepter: &mut A,
) -> Result<(), Fail> {
    let port = listen_from(accepter, 48_200)?;
    let caller = begin(rt, host, port, Caller::AsksAndDrips(300))?;
    let mut link = next_link(accepter)?;
    let passed = time_to_finish(&host, &mut link);
    // The connection is closed while the link is still held, and nothing more can be done with it.
    assert!(rt; caller.join(rt));
    assert!(rt; is_cut_off(&mut link));
    finish(&mut link);
    accepter.give_back(link);
    // It waits a second for the peer's end, which would come after six.
    let passed = passed?;
    assert!(rt; passed > Duration::from_millis(900));
    assert!(rt; passed < Duration::from_secs(4));
    Ok(())
}

#[test]
fn what_was_not_read_takes_no_reply(rt: HostRuntime) -> Result<(), Fail> {
    try_over_tcp(&rt, rt, None, Trial::Unread)
}

#[test]
fn a_peer_that_sends_on_is_cut_off(rt: HostRuntime) -> Result<(), Fail> {
    try_over_tcp(&rt, rt, None, Trial::SendsOn)
}
