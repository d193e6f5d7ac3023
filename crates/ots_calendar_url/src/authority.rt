//! What follows the scheme of a URL: a host and maybe a port.
ghost use Rattle.std.specs.Prelude.{◌≡◌, ◌≤◌, ◌<◌, ◌↔◌, ℕ, length, slice_index, decimal, IsTrue};
ghost use Rattle.ots_address.specs.Address.{is_host_byte};
ghost use Rattle.ots_calendar_url.specs.CalendarUrl.{IsAuthority};
ghost use Rattle.ots_calendar_url.specs.inner.Authority.{EndsAuthority, IsPort};

use ots_address::MAX_HOST;
use ots_arguments::number;

const COLON: &[u8] = b":";

/// Whether the bytes are a host and maybe a port.
pub(crate) fn is_authority(bytes: &[u8]) -> bool
    ensures { IsTrue result ↔ IsAuthority bytes.now }
{
    let host = host_length(bytes);
    if host == 0 || host > MAX_HOST {
        return false;
    }
    ends_authority(&bytes[host..])
}

/// How many bytes of a host stand at the start.
fn host_length(bytes: &[u8]) -> usize
    ensures within { result ≤ length bytes.now }
    ensures all { (k : ℕ) → k < result → IsTrue (is_host_byte (slice_index bytes.now k)) }
    ensures next { result < length bytes.now → ¬ (IsTrue (is_host_byte (slice_index bytes.now result))) }
{
    for (i, byte) in bytes.iter().enumerate() {
        if !is_host_byte(*byte) {
            return i;
        }
    }
    bytes.len()
}

/// A letter, a digit, `-` or `.`.
fn is_host_byte(byte: u8) -> bool
    ensures { result ≡ is_host_byte byte }
{
    byte.is_ascii_alphanumeric() || byte == b'-' || byte == b'.'
}

/// Whether nothing follows the host, or a colon and a port.
fn ends_authority(after: &[u8]) -> bool
    ensures { IsTrue result ↔ EndsAuthority after.now }
{
    match after.strip_prefix(COLON) {
        Some(digits) => is_port(digits),
        None => after.is_empty(),
    }
}

/// Whether these are the digits of a port.
fn is_port(digits: &[u8]) -> bool
    ensures { IsTrue result ↔ IsPort digits.now }
{
    match str::from_utf8(digits) {
        Ok(word) => number(word, 1, 65_535).is_some(),
        Err(_) => false,
    }
}
