// The callers' ends of connections over loopback, each in a thread of its own.
use ots_io::{DialedLink, Dialer, Failed, Link, LinkSink, TcpDialer, write_all};
use std::test::Fail;
use std::thread;
use std::thread::{JoinHandle, Threads};
use std::time::Duration;

/// More than the sockets of both ends hold, so that the end of it waits for its reader.
pub const REPLY: usize = 1 << 18;

/// A head that is whole, as an accepter waits for it.
pub const HEAD: &[u8] = b"a\r\n\r\n";

/// What a caller does.
#[derive(Clone, Copy)]
pub enum Caller {
    /// It sends a head, and is to get `defgh` and then the end.
    Asks,
    /// The same, but it sends the head only after more than a second.
    AsksLate,
    /// It sends nothing, and is to get the end.
    IsSilent,
    /// It sends a byte now and then, at most so many, and is to be cut off.
    Drips(u64),
    /// The same after a head.
    AsksAndDrips(u64),
    /// It sends a head and 4 KiB at once and reads the reply only later: all of it is to come.
    SendsMuch,
}

/// Whether a link gives these bytes next.
pub fn gives_next<L: Link>(link: &mut L, bytes: &[u8]) -> bool {
    let mut buf = [0];
    for byte in bytes {
        if link.read(&mut buf) != Ok(1) || buf[0] != *byte {
            return false;
        }
    }
    true
}

/// Whether a link is at its end.
fn is_at_end<L: Link>(link: &mut L) -> bool {
    link.read(&mut [0]) == Ok(0)
}

/// Whether a link gives exactly these bytes, and then its end.
fn gives<L: Link>(link: &mut L, bytes: &[u8]) -> bool {
    gives_next(link, bytes) && is_at_end(link)
}

/// Whether a link takes all of these bytes.
pub fn takes<L: Link>(link: &mut L, bytes: &[u8]) -> bool {
    write_all(&mut LinkSink::new(link), bytes).is_ok()
}

/// Sends a byte now and then, until that fails: whether it did.
fn drips<L: Link>(rt: &HostRuntime, link: &mut L, most: u64) -> bool {
    for _ in 0..most {
        thread::sleep(rt, Duration::from_millis(20));
        if link.write(b"x") == Err(Failed) {
            return true;
        }
    }
    false
}

/// How many bytes a link gives up to its end. `None` where it fails before that.
fn given_whole<L: Link>(link: &mut L) -> Option<usize> {
    let mut buf = [0; 4_096];
    let mut given: usize = 0;
    for _ in 0..REPLY {
        match link.read(&mut buf) {
            Ok(0) => return Some(given),
            Ok(count) => given = given.saturating_add(count),
            Err(_) => return None,
        }
    }
    None
}

/// Sends a head and 4 KiB at once and reads the reply only later: whether all of it came.
fn sends_much<L: Link>(rt: &HostRuntime, link: &mut L) -> bool {
    let is_sent = takes(link, HEAD) && takes(link, &[7; 4_096]);
    thread::sleep(rt, Duration::from_millis(200));
    let given = given_whole(link);
    is_sent && given == Some(REPLY)
}

/// Sends a head after more than a second: whether `defgh` comes, and then the end.
fn asks_late<L: Link>(rt: &HostRuntime, link: &mut L) -> bool {
    thread::sleep(rt, Duration::from_millis(1_300));
    takes(link, HEAD) && gives(link, b"defgh")
}

/// Whether a caller meets over a link what it is to meet.
fn speaks<L: Link>(rt: &HostRuntime, link: &mut L, caller: Caller) -> bool {
    match caller {
        Caller::Asks => takes(link, HEAD) && gives(link, b"defgh"),
        Caller::AsksLate => asks_late(rt, link),
        Caller::IsSilent => takes(link, b"") && gives(link, b""),
        Caller::Drips(most) => drips(rt, link, most),
        Caller::AsksAndDrips(most) => takes(link, HEAD) && drips(rt, link, most),
        Caller::SendsMuch => sends_much(rt, link),
    }
}

/// The same of a caller that begins a conversation at a port, and ends it.
fn calls<D: Dialer>(rt: &HostRuntime, dialer: &mut D, port: u16, caller: Caller) -> bool {
    let Ok(slot) = dialer.connect("127.0.0.1", port) else {
        return false;
    };
    let is_met = speaks(rt, &mut DialedLink::new(dialer, slot), caller);
    dialer.close(slot);
    is_met
}

/// A caller over loopback. Its time limit is longer than any test, and ends one that would hang.
fn calls_over_tcp(rt: &HostRuntime, port: u16, caller: Caller) -> bool {
    let mut dialer = TcpDialer::with_limit(rt, rt.alloc(), Duration::from_secs(10));
    calls(rt, &mut dialer, port, caller)
}

/// Begins such a caller in a thread of its own: whether it meets what it is to meet.
pub fn begin<R: Threads>(
    threads: &R,
    rt: HostRuntime,
    port: u16,
    caller: Caller,
) -> Result<JoinHandle<bool>, Fail> {
    let begun = thread::spawn(threads, move || calls_over_tcp(&rt, port, caller))?;
    Ok(begun)
}
