// A connection over a real socket of this machine, with both ends in one process.
use crate::run::serve;
use hex::decode;
use ots_io::{Accepter, DialedLink, Dialer, Link, LinkSink, TcpAccepter, TcpDialer, write_all};
use std::alloc::Global;
use std::test::Fail;
use std::thread;
use std::time::Duration;

/// The digest of the bytes 0 to 31.
const DIGEST: &[u8] = b"POST /digest HTTP/1.1\r\nContent-Length: 32\r\n\r\n\
    \x00\x01\x02\x03\x04\x05\x06\x07\x08\x09\x0a\x0b\x0c\x0d\x0e\x0f\x10\x11\x12\x13\x14\x15\x16\
    \x17\x18\x19\x1a\x1b\x1c\x1d\x1e\x1f";

/// The head of the reply, the tree after it, and the journal then, 65 bytes: made by another program with other
/// hashes, by the key of 64 times the letter k at second 1700000000, with the nonce of the bytes 64 to 79.
const HEAD: &[u8] =
    b"HTTP/1.1 200 OK\r\nContent-Type: application/octet-stream\r\nContent-Length: 68\r\nConnection: close\r\n\r\n";

const TREE: &str =
    "f010404142434445464748494a4b4c4d4e4f08f1046553f100f008f1c1393a00f256190083dfe30d2ef90c8e171668\
    7474703a2f2f3132372e302e302e313a3134373838";

const STORED: &str =
    "4f545343414c020aa5000100000031010000002c6553f100c9c36a60af70121e28cabadaa89a3bc60a355f29a2d674\
    095347d305214a6a70f1c1393a00f2561900";

/// The bytes of hexadecimal digits, after these.
fn with_digits(alloc: Global, prefix: &[u8], digits: &str) -> Result<Vec<u8>, Fail> {
    let Ok(bytes) = decode(alloc, digits) else {
        return Err(Fail::from("digits"));
    };
    let mut whole = prefix.to_vec(alloc)?;
    whole.extend_from_slice(&bytes)?;
    Ok(whole)
}

/// A port that nobody listens on.
fn free_port(rt: &HostRuntime) -> Result<u16, Fail> {
    for port in 47_000..47_200 {
        if TcpAccepter::new(rt, rt.alloc()).listen(port).is_ok() {
            return Ok(port);
        }
    }
    Err(Fail::from("no port is free"))
}

/// What a link gives before it fails or is at its end.
fn read_to_end<L: Link>(rt: &HostRuntime, link: &mut L) -> Option<Vec<u8>> {
    let mut whole = Vec::new(rt.alloc());
    let mut byte = [0];
    for _ in 0..1000 {
        if link.read(&mut byte) != Ok(1) {
            break;
        }
        whole.push(byte[0]).ok()?;
    }
    Some(whole)
}

/// Sends the digest and answers the reply, where nothing fails.
fn exchange<L: Link>(rt: &HostRuntime, link: &mut L) -> Option<Vec<u8>> {
    write_all(&mut LinkSink::new(link), DIGEST).ok()?;
    read_to_end(rt, link)
}

/// The same on a connection that is made as soon as somebody listens.
fn ask(rt: &HostRuntime, port: u16) -> Option<Vec<u8>> {
    let mut dialer = TcpDialer::with_limit(rt, rt.alloc(), Duration::from_secs(20));
    for _ in 0..1000 {
        if let Ok(slot) = dialer.connect("127.0.0.1", port) {
            let reply = exchange(rt, &mut DialedLink::new(&mut dialer, slot));
            dialer.close(slot);
            return reply;
        }
        thread::sleep(rt, Duration::from_millis(10));
    }
    None
}

/// The words of serving one connection at this port.
fn serve_at(port: &str) -> [&str; 10] {
    [
        "j",
        "serve",
        "--key",
        "k",
        "--uri",
        "http://127.0.0.1:14788",
        "--port",
        port,
        "--accept",
        "1",
    ]
}

#[test]
fn one_round_over_a_real_socket(rt: HostRuntime) -> Result<(), Fail> {
    let port = free_port(&rt)?;
    let caller = thread::spawn(&rt, move || ask(&rt, port))?;
    let number = format!(in rt.alloc(); "{port}")?;
    let words = serve_at(&number);
    let ended = serve(&rt, &words, TcpAccepter::new(&rt, rt.alloc()))?;
    let printed = format!(in rt.alloc(); "listening {port}\nserved 1\n")?;
    assert_eq!(rt; ended.status, 0);
    assert!(rt; ended.text.as_slice() == printed.as_bytes());
    assert!(rt; caller.join(&rt) == Some(with_digits(rt.alloc(), HEAD, TREE)?));
    assert!(rt; ended.journal.as_slice() == with_digits(rt.alloc(), &[], STORED)?.as_slice());
    Ok(())
}
