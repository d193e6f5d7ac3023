//! The parts of one address, by its bytes.
ghost use Rattle.std.specs.Prelude.{◌≡◌, ◌≤◌, ◌<◌, ◌+◌, ◌*◌, ℕ, List, length, take, drop, min, slice_index, decimal};
ghost use Rattle.std.specs.Prelude.{IsTrue, IfSome, IfNone};
ghost use Rattle.std.specs.Char.{digit_value};
ghost use Rattle.std.specs.Str.Parse.{digits_value};
ghost use Rattle.ots_address.specs.Address.{is_host_byte, IsAddress, KeepsAddress, IsHostAndPort, IsPortPart};

use crate::limits::{DEFAULT_PORT, MAX_HOST};
use itoa::Buffer;

const HTTP: &[u8] = b"http://";

const COLON: &[u8] = b":";

/// Where the host of an address ends, counted from after `http://`, and its port.
#[derive(Clone, Copy, Debug, PartialEq, Eq)]
pub(crate) struct Parts {
    pub(crate) host: usize,
    pub(crate) port: u16,
}

/// The parts of an address, where the text is one.
pub(crate) fn read_parts(text: &[u8]) -> Option<Parts>
    ensures some { IfSome result (λ parts. KeepsAddress text.now parts.host parts.port) }
    ensures none { IfNone result ((host : List ℕ) (port : ℕ) → IsAddress text.now host port → ⊥) }
{
    match text.strip_prefix(HTTP) {
        Some(rest) => read_host_and_port(rest),
        None => None,
    }
}

/// The parts of what follows `http://`.
fn read_host_and_port(rest: &[u8]) -> Option<Parts>
    ensures some { IfSome result (λ parts. IsHostAndPort rest.now (take parts.host rest.now) parts.port) }
    ensures within { IfSome result (λ parts. parts.host ≤ length rest.now) }
    ensures none { IfNone result ((host : List ℕ) (port : ℕ) → IsHostAndPort rest.now host port → ⊥) }
{
    let host = host_length(rest);
    if host == 0 || host > MAX_HOST {
        return None;
    }
    match read_port(&rest[host..]) {
        Some(port) => Some(Parts { host, port }),
        None => None,
    }
}

/// How many bytes of a host stand at the start.
fn host_length(rest: &[u8]) -> usize
    ensures within { result ≤ length rest.now }
    ensures all { (k : ℕ) → k < result → IsTrue (is_host_byte (slice_index rest.now k)) }
    ensures next { result < length rest.now → ¬ (IsTrue (is_host_byte (slice_index rest.now result))) }
{
    for (i, byte) in rest.iter().enumerate() {
        if !is_host_byte(*byte) {
            return i;
        }
    }
    rest.len()
}

/// A letter, a digit, `-` or `.`.
fn is_host_byte(byte: u8) -> bool
    ensures { result ≡ is_host_byte byte }
{
    byte.is_ascii_alphanumeric() || byte == b'-' || byte == b'.'
}

/// The port by what follows the host.
fn read_port(after: &[u8]) -> Option<u16>
    ensures some { IfSome result (λ port. IsPortPart after.now port) }
    ensures none { IfNone result ((port : ℕ) → IsPortPart after.now port → ⊥) }
{
    if after.is_empty() {
        return Some(DEFAULT_PORT);
    }
    match after.strip_prefix(COLON) {
        Some(digits) => read_digits(digits),
        None => None,
    }
}

/// The port by its digits.
fn read_digits(digits: &[u8]) -> Option<u16>
    ensures some { IfSome result (λ port. (digits.now ≡ decimal port) × (1 ≤ port) × (port ≤ 65535)) }
    ensures none { IfNone result ((port : ℕ) → digits.now ≡ decimal port → 1 ≤ port → port ≤ 65535 → ⊥) }
{
    let value = value_up_to(digits);
    if value == 0 || value > 65535 {
        return None;
    }
    let port = value as u16;
    let mut buffer = Buffer::new();
    if buffer.format(port).as_bytes() != digits {
        return None;
    }
    Some(port)
}

/// The number that digits write, or 65,536 where it is greater.
fn value_up_to(digits: &[u8]) -> u32
    ensures { result ≡ min (digits_value 10 digits.now) 65536 }
{
    let mut value: u32 = 0;
    for digit in digits {
        value = next_value(value, *digit);
    }
    value
}

/// The same with one digit more.
fn next_value(value: u32, digit: u8) -> u32
    requires { value ≤ 65536 }
    ensures { result ≡ min (value * 10 + digit_value digit) 65536 }
{
    (value * 10 + digit_value(digit)).min(65536)
}

/// The value of a digit or a letter, and 36 of any other byte.
fn digit_value(byte: u8) -> u32
    ensures { result ≡ digit_value byte }
{
    match byte {
        b'0'..=b'9' => u32::from(byte - 48),
        b'A'..=b'Z' => u32::from(byte - 55),
        b'a'..=b'z' => u32::from(byte - 87),
        _ => 36,
    }
}
