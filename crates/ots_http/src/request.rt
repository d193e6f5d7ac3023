//! Requests to a calendar.
ghost use Rattle.std.specs.Prelude.{◌≡◌, ◌+◌, ◌≤◌, ℕ, List, length, map, take, All, IfOk, IsErrOf};
ghost use Rattle.ots_base.specs.Cause.{HasCauseWhere};
ghost use Rattle.ots_base.specs.Told.{IfTold};
ghost use Rattle.httparse.specs.Spans.{IsWithin, IsHeaderWithin, span_bytes, header_bytes};
ghost use Rattle.ots_http.specs.Given.{GivesAtMost};
ghost use Rattle.ots_http.specs.RequestTable.{asked_by, get_request, if_get, records_by, records_request};
ghost use Rattle.ots_http.specs.RequestRead.{IsRequestAnswer, DecidesHead, DecidesPost, digest_of};
ghost use Rattle.ots_http.specs.declared.request.RequestError.TheVariants.{LinkFault};

use crate::fields::{StatedLength, body_length};
use crate::heads::{HeadRead, read_head};
use crate::limits::{MAX_FIELDS, MAX_HEAD, MAX_RECORD};
use crate::numbers::read_number;
use crate::reading::read_on;
use httparse::spans::{EMPTY_HEADER_SPAN, HeaderSpan, RequestSpans};
use ots_outside::{Failed, Leaf, Link, MAX_DIGEST, Wanted};

/// What a request asks of a calendar.
#[derive(Clone, Copy, Debug)]
pub enum Request {
    /// To timestamp this digest.
    Digest(Leaf),
    /// For the timestamp of this commitment.
    Timestamp(Wanted),
    /// For the records from this number on, of at most `MAX_RECORD`.
    Records(u64),
    /// Nothing that a calendar does: the status of the reply.
    Refused(u16),
}

/// Why no request was read.
#[derive(Clone, Copy, Debug, PartialEq, Eq)]
pub enum RequestError {
    /// The link ended before its first byte.
    Closed,
    /// A read failed, and the link has counted the fault.
    LinkFault,
}

impl From<Failed> for RequestError {
    ghost from_gives = { λ _ e. e ≡ LinkFault };

    fn from(_: Failed) -> Self {
        RequestError::LinkFault
    }
}

/// The request that a link's input is, by the table of this project's HTTP profile, however the
/// reads are cut.
///
/// It reads at most `MAX_HEAD` bytes for the head and `MAX_DIGEST` for the digest. `Closed` comes
/// exactly where the link ended before its first byte, and `LinkFault` only where its count of
/// faults rose. It takes no memory.
pub fn read_request<L: Link>(link: &mut L) -> Result<Request, RequestError>
    ensures answer { IfTold (L.told link.old) (λ told. IsRequestAnswer told.left result) }
    ensures came { GivesAtMost (MAX_HEAD + MAX_DIGEST) (L.told link.old) (L.told link.new) }
    ensures cause { HasCauseWhere (IsErrOf result RequestError.LinkFault) (L.faults link.old) (L.faults link.new) }
    ensures same { L.same link.old link.new }
{
    let mut buffer = [0; MAX_HEAD + MAX_DIGEST];
    let mut fields = [EMPTY_HEADER_SPAN; MAX_FIELDS];
    match read_head::<RequestSpans, L>(link, &mut buffer, &mut fields)? {
        HeadRead::Ended => Err(RequestError::Closed),
        HeadRead::NoHead => Ok(Request::Refused(400)),
        HeadRead::Head(head, filled) => {
            match decide_head(&buffer[..filled], &fields[..head.headers], head) {
                Ok(size) => match read_on(link, &mut buffer, filled, head.len + size) {
                    Ok(count) => Ok(digest_of_size(&buffer[head.len..count], size)),
                    Err(_) => Err(RequestError::LinkFault),
                },
                Err(request) => Ok(request),
            }
        }
    }
}

/// The request that a head decides by itself, or the length of the digest that has to follow it.
fn decide_head(buffer: &[u8], fields: &[HeaderSpan], head: RequestSpans) -> Result<usize, Request>
    requires method { IsWithin (length buffer.now) head.method }
    requires target { IsWithin (length buffer.now) head.path }
    requires fields { All (IsHeaderWithin (length buffer.now)) fields.now }
    ensures { DecidesHead (span_bytes buffer.now head.method) (span_bytes buffer.now head.path)
        (map (header_bytes buffer.now) fields.now) result }
{
    let method = head.method.of(buffer);
    let target = head.path.of(buffer);
    if target == b"/digest".as_slice() {
        if method != b"POST".as_slice() {
            return Err(Request::Refused(405));
        }
        return decide_post(buffer, fields);
    }
    Err(decide_asked(method, target))
}

/// The request of a target that asks for something.
fn decide_asked(method: &[u8], target: &[u8]) -> Request
    ensures { result ≡ asked_by method.now target.now }
{
    match target.strip_prefix(b"/timestamp/".as_slice()) {
        Some(digits) => if_get(method, read_digits(digits)),
        None => decide_records(method, target),
    }
}

/// The request of a target that asks for records, or for nothing.
fn decide_records(method: &[u8], target: &[u8]) -> Request
    ensures { result ≡ records_by method.now target.now }
{
    match target.strip_prefix(b"/records/".as_slice()) {
        Some(digits) => if_get(method, read_first(digits)),
        None => Request::Refused(404),
    }
}

/// The request where the method is GET, and else that the method is refused.
fn if_get(method: &[u8], request: Request) -> Request
    ensures { result ≡ if_get method.now request }
{
    if method != b"GET".as_slice() {
        return Request::Refused(405);
    }
    request
}

/// What the fields of a POST decide.
fn decide_post(buffer: &[u8], fields: &[HeaderSpan]) -> Result<usize, Request>
    requires { All (IsHeaderWithin (length buffer.now)) fields.now }
    ensures { DecidesPost (map (header_bytes buffer.now) fields.now) result }
{
    match body_length(buffer, fields, MAX_DIGEST) {
        StatedLength::Absent => Err(Request::Refused(411)),
        StatedLength::Malformed => Err(Request::Refused(400)),
        StatedLength::TooGreat => Err(Request::Refused(413)),
        StatedLength::Length(0) => Err(Request::Refused(400)),
        StatedLength::Length(size) => Ok(size),
    }
}

/// The request for the commitment of these hexadecimal digits.
fn read_digits(digits: &[u8]) -> Request
    ensures { result ≡ get_request digits.now }
{
    if digits.len() > 2 * MAX_DIGEST {
        return Request::Refused(404);
    }
    let mut bytes = [0; MAX_DIGEST];
    let room = &mut bytes[..digits.len() / 2];
    if hex::decode_to_slice(digits, room).is_err() {
        return Request::Refused(400);
    }
    match Wanted::new(room) {
        Some(wanted) => Request::Timestamp(wanted),
        None => Request::Refused(400),
    }
}

/// The request for the records from the number of these digits on.
fn read_first(digits: &[u8]) -> Request
    ensures { result ≡ records_request digits.now }
{
    if digits.len() > 1 && digits[0] == b'0' {
        return Request::Refused(400);
    }
    match read_number(digits, MAX_RECORD) {
        Some(number) if number <= MAX_RECORD => Request::Records(number),
        _ => Request::Refused(400),
    }
}

/// The digest of this size, of which these are the first bytes, or all where the input ended.
fn digest_of_size(bytes: &[u8], size: usize) -> Request
    requires least { 1 ≤ size }
    requires most { size ≤ MAX_DIGEST }
    ensures { (body : List ℕ) → bytes.now ≡ take size body → result ≡ digest_of size body }
{
    if bytes.len() < size {
        return Request::Refused(400);
    }
    match Leaf::new(bytes) {
        Ok(leaf) => Request::Digest(leaf),
        Err(_) => Request::Refused(400),
    }
}
