// The time limits of a link, and what finishing it does, by a clock and a network in memory.
use super::fake_net::{FakeNet, Outside};
use ots_io::{Accepter, Failed, Link, TcpAccepter};
use std::alloc::Global;
use std::process::Abort;
use std::test::Fail;

/// What is tried over a link.
#[derive(Clone, Copy)]
enum Trial {
    Request,
    Retry,
    Silence,
    Late,
    Reply,
    MuchLeft,
    SlowlyLeft,
}

/// A read of four bytes answers so.
fn read<L: Link>(rt: &impl Abort, link: &mut L, answer: Result<usize, Failed>) {
    assert_eq!(rt; link.read(&mut [0; 4]), answer);
}

/// A write of one byte answers so.
fn write<L: Link>(rt: &impl Abort, link: &mut L, answer: Result<usize, Failed>) {
    assert_eq!(rt; link.write(b"a"), answer);
}

/// Says that nothing more is written.
fn finish<L: Link>(link: &mut L) {
    link.finish();
}

/// So many timeouts were set.
fn expect_timeouts(rt: &impl Abort, outside: &Outside, timeouts: u64) {
    assert_eq!(rt; outside.timeouts(), timeouts);
}

/// The peer has given so many bytes.
fn expect_given(rt: &impl Abort, outside: &Outside, given: u64) {
    assert_eq!(rt; outside.given(), given);
}

/// So many milliseconds have passed.
fn expect_now(rt: &impl Abort, outside: &Outside, now: u64) {
    assert_eq!(rt; outside.now(), now);
}

fn request<L: Link>(rt: &impl Abort, outside: &Outside, link: &mut L) {
    read(rt, link, Ok(4));
    outside.wait(900);
    read(rt, link, Ok(4));
    expect_timeouts(rt, outside, 1);
    outside.wait(200);
    read(rt, link, Ok(4));
    outside.wait(8_899);
    read(rt, link, Ok(4));
    // The timeout of the socket, a second, ends no call over a second late.
    expect_timeouts(rt, outside, 1);
    outside.wait(1);
    // After the limit what has come is read, and nothing is waited for.
    read(rt, link, Ok(4));
    expect_timeouts(rt, outside, 1);
    outside.wait(60_000);
    read(rt, link, Ok(4));
    // What the reply may take has not begun.
    write(rt, link, Ok(1));
    expect_given(rt, outside, 24);
}

fn late<L: Link>(rt: &impl Abort, outside: &Outside, link: &mut L) {
    // The limit began with the accept.
    outside.wait(10_000);
    read(rt, link, Err(Failed));
    expect_now(rt, outside, 10_000);
    // What a finished link still reads waits by it.
    expect_timeouts(rt, outside, 1);
}

fn retry<L: Link>(rt: &impl Abort, outside: &Outside, link: &mut L) {
    read(rt, link, Ok(4));
    expect_now(rt, outside, 9_000);
    expect_timeouts(rt, outside, 1);
    // What a finished link still reads waits by the same timeout.
    finish(link);
    expect_given(rt, outside, 4 + 8_192);
    expect_timeouts(rt, outside, 1);
}

fn silence<L: Link>(rt: &impl Abort, outside: &Outside, link: &mut L) {
    read(rt, link, Err(Failed));
    expect_now(rt, outside, 10_000);
    expect_timeouts(rt, outside, 1);
}

fn reply<L: Link>(rt: &impl Abort, outside: &Outside, link: &mut L) {
    read(rt, link, Ok(4));
    outside.wait(60_000);
    write(rt, link, Ok(1));
    expect_timeouts(rt, outside, 2);
    outside.wait(9_999);
    write(rt, link, Ok(1));
    outside.wait(1);
    write(rt, link, Err(Failed));
    // A link that failed is closed at once.
    finish(link);
    expect_given(rt, outside, 4);
}

fn much_left<L: Link>(rt: &impl Abort, outside: &Outside, link: &mut L) {
    finish(link);
    expect_given(rt, outside, 8_192);
    // It is closed, and finishing it again does nothing.
    read(rt, link, Err(Failed));
    write(rt, link, Err(Failed));
    finish(link);
    expect_given(rt, outside, 8_192);
}

fn slowly_left<L: Link>(rt: &impl Abort, outside: &Outside, link: &mut L) {
    finish(link);
    expect_given(rt, outside, 4);
    expect_now(rt, outside, 1_200);
}

/// Tries this over a link.
fn try_link<L: Link>(rt: &impl Abort, outside: &Outside, link: &mut L, trial: Trial) {
    match trial {
        Trial::Request => request(rt, outside, link),
        Trial::Retry => retry(rt, outside, link),
        Trial::Silence => silence(rt, outside, link),
        Trial::Late => late(rt, outside, link),
        Trial::Reply => reply(rt, outside, link),
        Trial::MuchLeft => much_left(rt, outside, link),
        Trial::SlowlyLeft => slowly_left(rt, outside, link),
    }
}

/// Tries this over the first link of an accepter with such a network.
fn try_over(rt: &impl Abort, alloc: Global, outside: &Outside, trial: Trial) -> Result<(), Fail> {
    let mut accepter = TcpAccepter::new(FakeNet { outside }, alloc);
    assert_eq!(rt; accepter.listen(1), Ok(()));
    let Ok(Some(mut link)) = accepter.accept() else {
        return Err(Fail::new("no connection"));
    };
    try_link(rt, outside, &mut link, trial);
    Ok(())
}

#[test]
fn a_request_has_ten_seconds_from_its_accept(rt: HostRuntime) -> Result<(), Fail> {
    try_over(&rt, rt.alloc(), &Outside::sending(4, 0), Trial::Request)
}

#[test]
fn a_read_that_waited_a_second_is_made_again(rt: HostRuntime) -> Result<(), Fail> {
    try_over(&rt, rt.alloc(), &Outside::silent(9, 4, 0), Trial::Retry)
}

#[test]
fn a_peer_that_is_silent_for_ten_seconds_is_cut_off(rt: HostRuntime) -> Result<(), Fail> {
    try_over(&rt, rt.alloc(), &Outside::silent(11, 4, 0), Trial::Silence)
}

#[test]
fn a_silent_peers_limit_began_with_its_accept(rt: HostRuntime) -> Result<(), Fail> {
    try_over(&rt, rt.alloc(), &Outside::silent(9, 4, 0), Trial::Late)
}

#[test]
fn a_reply_has_ten_seconds_from_its_first_write(rt: HostRuntime) -> Result<(), Fail> {
    try_over(&rt, rt.alloc(), &Outside::sending(4, 0), Trial::Reply)
}

#[test]
fn a_finished_link_reads_eight_kib_at_most(rt: HostRuntime) -> Result<(), Fail> {
    try_over(
        &rt,
        rt.alloc(),
        &Outside::sending(1_000, 0),
        Trial::MuchLeft,
    )
}

#[test]
fn a_finished_link_reads_for_a_second_at_most(rt: HostRuntime) -> Result<(), Fail> {
    try_over(
        &rt,
        rt.alloc(),
        &Outside::sending(1, 300),
        Trial::SlowlyLeft,
    )
}

/// Two links are finished, and then given back.
fn end_round(rt: &impl Abort, alloc: Global, outside: &Outside) -> Result<(), Fail> {
    let mut accepter = TcpAccepter::for_rounds(FakeNet { outside }, alloc);
    assert_eq!(rt; accepter.listen(1), Ok(()));
    let (Ok(Some(mut first)), Ok(Some(mut second))) = (accepter.accept(), accepter.accept()) else {
        return Err(Fail::new("no connection"));
    };
    finish(&mut first);
    finish(&mut second);
    expect_given(rt, outside, 0);
    accepter.give_back(first);
    accepter.give_back(second);
    Ok(())
}

#[test]
fn the_links_of_a_round_end_within_one_second_together(rt: HostRuntime) -> Result<(), Fail> {
    let outside = Outside::sending(1, 300);
    end_round(&rt, rt.alloc(), &outside)?;
    expect_given(&rt, &outside, 4);
    expect_now(&rt, &outside, 1_200);
    Ok(())
}
