//! The keys under which requests are kept. The order of their bytes is that of the requests.
ghost use Rattle.std.specs.Prelude.{◌≡◌, ◌≤◌, ◌++◌, length, map, IfOk};
ghost use Rattle.std.specs.List.{count_by};
ghost use Rattle.ots_calendar_url.specs.CalendarUrl.{text_of};
ghost use Rattle.ots_sheet.specs.Request.{request_parts};
ghost use Rattle.ots_request_set.specs.inner.Key.{IsKey, is_before, kind_byte, kind_of, parts_of, rank_in};

use ots_address::MAX_CALENDARS;
use ots_base::OutOfMemory;
use ots_calendar_url::CalendarUrl;
use ots_sheet::{Kind, Request};
use std::alloc::Global;

/// How many bytes of a key stand before the message: one for the kind, one for the rank of the URL in
/// the order of texts, and one for its place in the list.
const HEAD: usize = 3;

/// The byte of a kind.
pub(crate) fn kind_byte(kind: Kind) -> u8
    ensures { result ≡ kind_byte kind }
{
    match kind {
        Kind::Get => 0,
        Kind::Post => 1,
    }
}

/// The kind of a byte.
fn kind_of(byte: u8) -> Kind
    ensures { result ≡ kind_of byte }
{
    match byte {
        0 => Kind::Get,
        _ => Kind::Post,
    }
}

/// How many of the URLs have a text that comes before this one.
pub(crate) fn rank_of(urls: &[CalendarUrl], text: &str) -> u8
    requires { length urls.now ≤ MAX_CALENDARS }
    ensures { result ≡ rank_in (map text_of urls.now) text.now }
{
    let mut rank = 0;
    for url in urls {
        if url.text() < text {
            rank += 1;
        }
    }
    rank
}

/// The key with this head and this message.
pub(crate) fn key_of(
    alloc: Global,
    head: [u8; HEAD],
    message: &[u8],
) -> Result<Vec<u8>, OutOfMemory>
    ensures { IfOk result (λ key. key.items ≡ head ++ message.now) }
{
    let mut key = Vec::with_capacity(alloc, HEAD + message.len())?;
    key.extend_from_slice(&head)?;
    key.extend_from_slice(message)?;
    Ok(key)
}

/// The request of a key.
pub(crate) fn request_of<'a>(urls: &'a [CalendarUrl], key: &'a [u8]) -> Request<'a>
    requires { IsKey (map text_of urls.now) key.now }
    ensures { request_parts result ≡ parts_of (map text_of urls.now) key.now }
{
    Request {
        kind: kind_of(key[0]),
        url: urls[key[2] as usize].text().as_bytes(),
        message: &key[HEAD..],
    }
}
