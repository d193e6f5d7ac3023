//! The URL of a calendar.
ghost use Rattle.std.specs.Prelude.{◌≡◌, ◌↔◌, ℕ, List, IsTrue, IfSome, IfNone};
ghost use Rattle.ots_calendar_url.specs.CalendarUrl.{BeginsUrl, IsUrl};

use crate::authority::is_authority;
use std::marker::Model;

const HTTP: &[u8] = b"http://";

const HTTPS: &[u8] = b"https://";

/// How a calendar is reached.
#[derive(Clone, Copy, Debug, PartialEq, Eq)]
pub enum Scheme {
    /// `http://` (RFC 9110, section 4.2.1).
    Http,
    /// `https://` (RFC 9110, section 4.2.2).
    Https,
}

/// The URL of a calendar: `http://` or `https://`, a host, and maybe a port.
///
/// Contracts see its text and its scheme.
#[derive(Debug, Drop)]
pub struct CalendarUrl {
    pub(crate) text: String,
    pub(crate) scheme: Scheme,
}

impl Model for CalendarUrl {
    ghost use Rattle.std.specs.Prelude.{string_bytes};
    ghost use Rattle.ots_calendar_url.specs.CalendarUrl.{IsUrl, Url};

    ghost Value = { Url };

    ghost view = { λ u. record { text = string_bytes u.text; scheme = u.scheme } };

    ghost invariant = { λ u. IsUrl (string_bytes u.text) u.scheme };
}

impl CalendarUrl {
    /// The whole text, as it stood in the list.
    pub fn text(&self) -> &str
        ensures text { result.now ≡ self.now.text }
        ensures url { IsUrl self.now.text self.now.scheme }
    {
        self.text.as_str()
    }

    /// The scheme.
    pub fn scheme(&self) -> Scheme
        ensures scheme { result ≡ self.now.scheme }
        ensures url { IsUrl self.now.text self.now.scheme }
    {
        self.scheme
    }
}

/// The scheme of the URL that the bytes are: `http://` or `https://`, a host of 1 to 253 letters,
/// digits, `-` and `.`, and maybe `:` and a port of 1 to 65,535 without leading zeros. `None` where
/// they are no such URL. It takes no memory.
pub fn scheme_of(bytes: &[u8]) -> Option<Scheme>
    ensures some { IfSome result (IsUrl bytes.now) }
    ensures none { IfNone result ((scheme : Scheme) → IsUrl bytes.now scheme → ⊥) }
{
    if begins_url(bytes, HTTP) {
        return Some(Scheme::Http);
    }
    if begins_url(bytes, HTTPS) {
        return Some(Scheme::Https);
    }
    None
}

/// Whether the bytes are this word, and then a host and maybe a port.
fn begins_url(bytes: &[u8], word: &[u8]) -> bool
    ensures { IsTrue result ↔ BeginsUrl bytes.now word.now }
{
    match bytes.strip_prefix(word) {
        Some(rest) => is_authority(rest),
        None => false,
    }
}
