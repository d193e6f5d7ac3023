// Connections that are held until they have spoken, over loopback.
use super::callers::{HEAD, gives_next, takes};
use super::sockets::{listen_from, next_link};
use ots_io::{Accepter, Link, TcpAccepter};
use std::io::Write;
use std::net::{Ipv4Addr, SocketAddr, TcpStream};
use std::process::Abort;
use std::test::Fail;
use std::time::{Duration, Instant};

/// The time of a request, in milliseconds.
const LIMIT: u64 = 600;

/// More bytes than the sockets of both ends hold.
const MORE_THAN_SOCKETS_HOLD: usize = 1 << 23;

/// Opens so many connections, which say nothing.
fn connect(rt: &HostRuntime, port: u16, count: usize) -> Result<Vec<TcpStream>, Fail> {
    let mut streams = Vec::new(rt.alloc());
    let address = SocketAddr::from((Ipv4Addr::LOCALHOST, port));
    for _ in 0..count {
        let limit = Duration::from_millis(800);
        streams.push(TcpStream::connect_timeout(rt, &address, limit)?)?;
    }
    Ok(streams)
}

/// Takes so many links, each of which has nothing left to say.
fn take_silent<A: Accepter>(rt: &impl Abort, accepter: &mut A, count: u64) -> Result<(), Fail> {
    for _ in 0..count {
        let mut link = next_link(accepter)?;
        assert!(rt; is_cut_off_at_once(&mut link));
        accepter.give_back(link);
    }
    assert_eq!(rt; accepter.accepted(), count);
    Ok(())
}

/// Whether a link has nothing to read, and is closed then.
fn is_cut_off_at_once<L: Link>(link: &mut L) -> bool {
    let is_silent = link.read(&mut [0; 4]).is_err();
    link.finish();
    is_silent
}

/// The next links give a head each, and are accepted one after another from so many on.
fn take_spoken<A: Accepter>(
    rt: &impl Abort,
    accepter: &mut A,
    before: u64,
    count: u64,
) -> Result<(), Fail> {
    for more in 0..count {
        assert_eq!(rt; accepter.accepted(), before.saturating_add(more));
        let mut link = next_link(accepter)?;
        assert!(rt; gives_next(&mut link, HEAD));
        accepter.give_back(link);
    }
    Ok(())
}

/// Sends these bytes on each connection.
fn send(streams: &mut Vec<TcpStream>, bytes: &[u8]) -> Result<(), Fail> {
    for stream in streams {
        stream.write_all(bytes)?;
    }
    Ok(())
}

/// Sends a head on each connection.
fn speak(streams: &mut Vec<TcpStream>) -> Result<(), Fail> {
    send(streams, HEAD)
}

/// The next link gives these bytes, and no more.
fn take_part<A: Accepter>(rt: &impl Abort, accepter: &mut A, bytes: &[u8]) -> Result<(), Fail> {
    let mut link = next_link(accepter)?;
    assert!(rt; gives_next(&mut link, bytes) && is_cut_off_at_once(&mut link));
    accepter.give_back(link);
    Ok(())
}

#[test]
fn silent_connections_have_their_time_together(rt: HostRuntime) -> Result<(), Fail> {
    let limit = Duration::from_millis(LIMIT);
    let mut accepter = TcpAccepter::with_limits(&rt, rt.alloc(), limit, limit);
    let port = listen_from(&mut accepter, 48_400)?;
    let streams = connect(&rt, port, 64)?;
    let began = Instant::now(&rt)?;
    take_silent(&rt, &mut accepter, 64)?;
    let passed = began.elapsed(&rt)?;
    drop(streams);
    assert!(rt; passed >= Duration::from_millis(400) && passed < Duration::from_secs(5));
    Ok(())
}

#[test]
fn a_connection_that_has_spoken_comes_before_silent_ones(rt: HostRuntime) -> Result<(), Fail> {
    let mut accepter = TcpAccepter::new(&rt, rt.alloc());
    let port = listen_from(&mut accepter, 48_600)?;
    let mut silent = connect(&rt, port, 8)?;
    let mut spoken = connect(&rt, port, 1)?;
    speak(&mut spoken)?;
    let began = Instant::now(&rt)?;
    take_spoken(&rt, &mut accepter, 0, 1)?;
    // Those that were silent are held still, and come once they speak.
    speak(&mut silent)?;
    take_spoken(&rt, &mut accepter, 1, 8)?;
    assert!(rt; began.elapsed(&rt)? < Duration::from_secs(3));
    Ok(())
}

#[test]
fn what_came_in_time_is_read_after_it(rt: HostRuntime) -> Result<(), Fail> {
    let limit = Duration::from_millis(LIMIT);
    let mut accepter = TcpAccepter::with_limits(&rt, rt.alloc(), limit, limit);
    let port = listen_from(&mut accepter, 48_800)?;
    let mut streams = connect(&rt, port, 1)?;
    send(&mut streams, b"ab")?;
    take_part(&rt, &mut accepter, b"ab")?;
    drop(streams);
    Ok(())
}

/// The next link gives these bytes.
fn take_bytes<A: Accepter>(rt: &impl Abort, accepter: &mut A, bytes: &[u8]) -> Result<(), Fail> {
    let mut link = next_link(accepter)?;
    assert!(rt; gives_next(&mut link, bytes));
    accepter.give_back(link);
    Ok(())
}

#[test]
fn what_ends_or_begins_no_head_is_not_held(rt: HostRuntime) -> Result<(), Fail> {
    let mut accepter = TcpAccepter::new(&rt, rt.alloc());
    let port = listen_from(&mut accepter, 48_900)?;
    let began = Instant::now(&rt)?;
    for bytes in [b"ab", b"\x16\x03"] {
        let mut streams = connect(&rt, port, 1)?;
        send(&mut streams, bytes)?;
        // The first one is closed, with a part of a head.
        if bytes == b"ab" {
            streams.clear();
        }
        take_bytes(&rt, &mut accepter, bytes)?;
    }
    assert!(rt; began.elapsed(&rt)? < Duration::from_secs(3));
    Ok(())
}

#[test]
fn a_head_in_pieces_is_given_whole(rt: HostRuntime) -> Result<(), Fail> {
    let mut accepter = TcpAccepter::new(&rt, rt.alloc());
    let port = listen_from(&mut accepter, 49_400)?;
    let much = vec![in rt.alloc(); b'a'; 2_500]?;
    let mut slow = connect(&rt, port, 1)?;
    send(&mut slow, b"GET / HTTP/1.1\r\nA: ")?;
    send(&mut slow, &much)?;
    let mut spoken = connect(&rt, port, 1)?;
    speak(&mut spoken)?;
    // The first one is held with the part that came.
    take_spoken(&rt, &mut accepter, 0, 1)?;
    send(&mut slow, b"b\r\n\r\nbody")?;
    let mut link = next_link(&mut accepter)?;
    assert!(rt; gives_next(&mut link, b"GET / HTTP/1.1\r\nA: ") && gives_next(&mut link, &much));
    assert!(rt; gives_next(&mut link, b"b\r\n\r\nbody"));
    accepter.give_back(link);
    Ok(())
}

/// The next link gives a head, and is cut off where its peer sends nothing more and takes nothing.
fn take_stalled<A: Accepter>(rt: &impl Abort, accepter: &mut A, much: &[u8]) -> Result<(), Fail> {
    let mut link = next_link(accepter)?;
    assert!(rt; gives_next(&mut link, HEAD) && link.read(&mut [0]).is_err());
    accepter.give_back(link);
    let mut link = next_link(accepter)?;
    assert!(rt; gives_next(&mut link, HEAD) && !takes(&mut link, much));
    accepter.give_back(link);
    Ok(())
}

#[test]
fn each_of_several_stalled_connections_is_cut_off(rt: HostRuntime) -> Result<(), Fail> {
    let limit = Duration::from_millis(LIMIT);
    let mut accepter = TcpAccepter::with_limits(&rt, rt.alloc(), limit, limit);
    let port = listen_from(&mut accepter, 49_200)?;
    let much = vec![in rt.alloc(); b'a'; MORE_THAN_SOCKETS_HOLD]?;
    let began = Instant::now(&rt)?;
    // The first connection shows whether the others have their timeouts already.
    for _ in 0..3 {
        let mut streams = connect(&rt, port, 2)?;
        speak(&mut streams)?;
        take_stalled(&rt, &mut accepter, &much)?;
    }
    let passed = began.elapsed(&rt)?;
    assert!(rt; passed >= Duration::from_secs(3) && passed < Duration::from_secs(20));
    Ok(())
}

#[test]
fn three_hundred_connections_wait_in_the_queue(rt: HostRuntime) -> Result<(), Fail> {
    let mut accepter = TcpAccepter::new(&rt, rt.alloc());
    let port = listen_from(&mut accepter, 49_000)?;
    // Nobody accepts them. The queue that std asks for has room for 128.
    assert_eq!(rt; connect(&rt, port, 300)?.len(), 300);
    Ok(())
}
