ghost use Rattle.std.specs.Prelude.{◌≤◌, length};

use crate::links::{NotingLink, Written, noting};
use ots_base::OutOfMemory;
use ots_gateway::{GateServed, Round, serve_round};
use ots_memory::{DialerRoom, ListNonces, ScriptDialer};
use ots_outside::{Dialer, Link, Nonces};
use std::alloc::Global;
use std::process::Abort;
use std::sync::Arc;
use std::sync::atomic::{AtomicU64, Ordering};
use std::test::Fail;

const DIGEST: &[u8] = b"POST /digest HTTP/1.1\r\nContent-Length: 32\r\n\r\n\
    \x01\x01\x01\x01\x01\x01\x01\x01\x01\x01\x01\x01\x01\x01\x01\x01\x01\x01\x01\x01\x01\x01\x01\x01\
    \x01\x01\x01\x01\x01\x01\x01\x01";

const QUERY: &[u8] = b"GET /timestamp/00 HTTP/1.1\r\n\r\n";

/// A room for no conversation.
const NO_ROOM: DialerRoom = DialerRoom {
    conversations: 0,
    host_length: 0,
    bytes: 0,
};

/// A digest, a query, no request, and a digest and a query whose link fails at its read or at its first write.
fn round_links(alloc: Global, written: &Written) -> Result<Vec<NotingLink>, OutOfMemory> {
    let mut links = Vec::new(alloc);
    links.push(noting(alloc, written, DIGEST, &[])?)?;
    links.push(noting(alloc, written, QUERY, &[])?)?;
    links.push(noting(alloc, written, b"", &[])?)?;
    links.push(noting(alloc, written, DIGEST, &[1])?)?;
    links.push(noting(alloc, written, QUERY, &[2])?)?;
    links.push(noting(alloc, written, DIGEST, &[])?)?;
    Ok(links)
}

/// Serves a round without calendars over any objects. What its clauses say is left here.
fn serve<L: Link, T: Dialer, N: Nonces>(
    alloc: Global,
    links: &mut [L],
    dialer: &mut T,
    nonces: &mut N,
) -> Result<Round, OutOfMemory>
    requires { length links.old ≤ 1024 }
{
    serve_round(alloc, links, &[], 1, dialer, nonces)
}

/// Each link was finished once, when all links had taken all that they have.
fn are_finished(rt: &impl Abort, links: &[NotingLink], written: u64) {
    for link in links {
        assert_eq!(rt; (link.finishes, link.written_then), (1, written));
    }
}

#[test]
fn each_link_of_a_round_is_finished_after_all_replies(rt: HostRuntime) -> Result<(), Fail> {
    let alloc = rt.alloc();
    let written = Arc::new(alloc, AtomicU64::new(0))?;
    let mut links = round_links(alloc, &written)?;
    let mut dialer = ScriptDialer::new(alloc, &[], NO_ROOM, &[])?;
    let mut nonces = ListNonces::new(alloc, &[7; 64], &[])?;
    assert!(rt; links.len() <= 1024);
    let round = serve(alloc, links.as_mut_slice(), &mut dialer, &mut nonces);
    are_finished(&rt, &links, written.load(Ordering::SeqCst));
    let served = round?.served;
    assert!(rt; matches!(served.get(0), Some(GateServed::Replied(503))));
    assert!(rt; matches!(served.get(1), Some(GateServed::Replied(404))));
    assert!(rt; matches!(served.get(2), Some(GateServed::Closed)));
    assert!(rt; matches!(served.get(3), Some(GateServed::LinkFault)));
    assert!(rt; matches!(served.get(4), Some(GateServed::LinkFault)));
    assert!(rt; matches!(served.get(5), Some(GateServed::Replied(503))));
    Ok(())
}
