//! URIs of pending attestations that wait to be sent.
ghost use Rattle.std.specs.Prelude.{◌≡◌, ◌↔◌, ℕ, List, IfOk, IfSome, IfNone, IsTrue};
ghost use Rattle.ots_calendar_url.specs.CalendarUrl.{IsUrl};
ghost use Rattle.ots_draft.specs.Draft.{IsPost, post_uri};

use ots_attest::{Uri, UriError};
use ots_base::OutOfMemory;
use ots_calendar_url::{CalendarUrl, scheme_of};
use std::alloc::Global;

/// What stands before the URL of a calendar to which a message is to be sent.
const POST: &str = "post:";

/// The URL that a URI names which waits to be sent: what follows `post:`, where that is the URL of a
/// calendar. `None` where the URI is of no such form. It takes no memory.
pub fn post_address(uri: &str) -> Option<&str>
    ensures some { IfSome result (λ address. IsPost uri.now address.now) }
    ensures none { IfNone result ((address : List ℕ) → IsPost uri.now address → ⊥) }
{
    let address = uri.strip_prefix(POST)?;
    match scheme_of(address.as_bytes()) {
        Some(_) => Some(address),
        None => None,
    }
}

/// The URI that waits to be sent to a calendar.
pub(crate) fn post_uri(alloc: Global, url: &CalendarUrl) -> Result<Uri, OutOfMemory>
    ensures { IfOk result (λ uri. uri ≡ post_uri url.now.text) }
{
    let mut text = String::from_str(alloc, POST)?;
    text.push_str(url.text())?;
    match Uri::new(alloc, text.as_str()) {
        Ok(uri) => Ok(uri),
        Err(UriError::OutOfMemory) => Err(OutOfMemory),
        // A URL has at most 267 bytes, and none that a URI may not have.
        Err(UriError::TooLong(_)) => unreachable!(),
        Err(UriError::BadChar(_)) => unreachable!(),
    }
}
