//! Requests that a client writes.
ghost use Rattle.std.specs.Prelude.{◌≡◌, ◌≤◌, ◌+◌, ◌++◌, length};
ghost use Rattle.ots_base.specs.Cause.{HasCause};
ghost use Rattle.ots_http.specs.RequestText.{request_bytes, post_text, get_text, get_end, records_text, host_text};
ghost use Rattle.ots_http.specs.Written.{WritesAll};

use crate::draft::{Draft, ROOM};
use crate::writing::{LinkFault, write_bytes};
use ots_address::{Address, DEFAULT_PORT, MAX_HOST};
use ots_base::MAX_MESSAGE;
use ots_ops::{Digest, Message};
use ots_outside::Link;

/// What a client asks of a calendar.
#[derive(Debug, Drop)]
pub enum Asked {
    /// To timestamp this digest.
    Post(Digest),
    /// For the timestamp of this message.
    Get(Message),
    /// For the records from this number on.
    Records(u64),
}

/// Writes a request to the calendar at this address, in one piece.
///
/// `LinkFault` comes only where the link's count of faults rose, and the link has then taken a prefix
/// of the request. It takes no memory.
pub fn write_request<L: Link>(
    link: &mut L,
    address: &Address,
    asked: &Asked,
) -> Result<(), LinkFault>
    ensures written { WritesAll (request_bytes address.now asked.now) (L.told link.old) (L.told link.new) result }
    ensures cause { HasCause (L.faults link.old) (L.faults link.new) result }
    ensures same { L.same link.old link.new }
{
    let draft = match asked {
        Asked::Post(digest) => draft_post(address, digest.bytes()),
        Asked::Get(message) => draft_get(address, message.bytes()),
        Asked::Records(number) => draft_records(address, *number),
    };
    write_bytes(link, draft.text())
}

/// The request that posts a digest.
fn draft_post(address: &Address, digest: &[u8]) -> Draft<ROOM>
    requires { length digest.now ≤ 32 }
    ensures { result ≡ post_text (host_text address.now.host address.now.port) digest.now }
{
    let mut draft = Draft::new();
    draft.add(b"POST /digest HTTP/1.1\r\nHost: ");
    add_host(&mut draft, address);
    draft.add(
        b"\r\nAccept: application/vnd.opentimestamps.v1\r\nContent-Type: application/octet-stream\r\nContent-Length: ",
    );
    draft.add_number(digest.len() as u64);
    draft.add(b"\r\nConnection: close\r\n\r\n");
    draft.add(digest);
    draft
}

/// The request that asks for the timestamp of a message.
fn draft_get(address: &Address, message: &[u8]) -> Draft<ROOM>
    requires { length message.now ≤ MAX_MESSAGE }
    ensures { result ≡ get_text (host_text address.now.host address.now.port) message.now }
{
    let mut draft = Draft::new();
    draft.add(b"GET /timestamp/");
    draft.add_hex(message);
    add_get_end(&mut draft, address);
    draft
}

/// The request that asks for the records from this number on.
fn draft_records(address: &Address, number: u64) -> Draft<ROOM>
    ensures { result ≡ records_text (host_text address.now.host address.now.port) number }
{
    let mut draft = Draft::new();
    draft.add(b"GET /records/");
    draft.add_number(number);
    add_get_end(&mut draft, address);
    draft
}

/// Adds what stands after the target of a request that asks for something.
fn add_get_end(draft: &mut Draft<ROOM>, address: &Address)
    requires { length draft.old + (MAX_HOST + 21 + 100) ≤ ROOM }
    ensures { draft.new ≡ draft.old ++ get_end (host_text address.now.host address.now.port) }
{
    draft.add(b" HTTP/1.1\r\nHost: ");
    add_host(draft, address);
    draft.add(b"\r\nAccept: application/vnd.opentimestamps.v1\r\nConnection: close\r\n\r\n");
}

/// Adds the host, and the port where it is not the default.
fn add_host(draft: &mut Draft<ROOM>, address: &Address)
    requires { length draft.old + (MAX_HOST + 21) ≤ ROOM }
    ensures host { draft.new ≡ draft.old ++ host_text address.now.host address.now.port }
    ensures length { length draft.new ≤ length draft.old + (MAX_HOST + 21) }
{
    draft.add(address.host().as_bytes());
    if address.port() != DEFAULT_PORT {
        draft.add(b":");
        draft.add_number(u64::from(address.port()));
    }
}
