//! The fields of a head that say how long the body is.
ghost use Rattle.std.specs.Prelude.{◌≡◌, ◌<◌, ◌≤◌, ℕ, List, codes, length, map, All};
ghost use Rattle.std.specs.Str.{str_eq_ignore_ascii_case};
ghost use Rattle.httparse.specs.Spans.{IsHeaderWithin, header_bytes, span_bytes};
ghost use Rattle.ots_http.specs.Fields.{body_length, is_named, values_of, stated, stated_by, StatesAtMost};
ghost use Rattle.ots_http.specs.FieldValues.{AreValues, with_another};

use crate::numbers::read_number;
use httparse::spans::{HeaderSpan, Span};
use ots_base::MAX_REPLY_BODY;

/// The length of the body that the fields of a head state.
#[derive(Clone, Copy, Debug, PartialEq, Eq)]
pub enum StatedLength {
    /// There is no such field.
    Absent,
    /// There are several, the value is not one or more digits, or a Transfer-Encoding field stands beside.
    Malformed,
    /// The number is greater than the caller takes.
    TooGreat,
    /// The number.
    Length(usize),
}

/// The values of all fields of one name.
#[derive(Clone, Copy, Debug)]
enum FieldValues {
    /// There is no such field.
    Absent,
    /// The value of the only one.
    One(Span),
    /// There are two or more.
    Several,
}

impl FieldValues {
    /// The same with one value more.
    fn with_another(self, value: Span) -> FieldValues
        ensures { result ≡ with_another self value }
    {
        match self {
            FieldValues::Absent => FieldValues::One(value),
            FieldValues::One(_) | FieldValues::Several => FieldValues::Several,
        }
    }
}

/// Whether a field has this name, whatever the case of the letters.
fn is_named(buffer: &[u8], field: HeaderSpan, name: &[u8]) -> bool
    requires { IsHeaderWithin (length buffer.now) field }
    ensures { result ≡ is_named name.now (header_bytes buffer.now field) }
{
    field.name.of(buffer).eq_ignore_ascii_case(name)
}

/// The values of all fields of this name.
fn values_of(buffer: &[u8], fields: &[HeaderSpan], name: &[u8]) -> FieldValues
    requires { All (IsHeaderWithin (length buffer.now)) fields.now }
    ensures { AreValues buffer.now (values_of name.now (map (header_bytes buffer.now) fields.now)) result }
{
    let mut values = FieldValues::Absent;
    for field in fields {
        if is_named(buffer, *field, name) {
            values = values.with_another(field.value);
        }
    }
    values
}

/// The length that the fields of a head state of its body, where at most `most` bytes are taken. It is the
/// rule of requests and of replies: no coding is taken, and Content-Length comes once at most.
pub(crate) fn body_length(buffer: &[u8], fields: &[HeaderSpan], most: usize) -> StatedLength
    requires small { most ≤ MAX_REPLY_BODY }
    requires fields { All (IsHeaderWithin (length buffer.now)) fields.now }
    ensures stated { result ≡ body_length most (map (header_bytes buffer.now) fields.now) }
    ensures limit { StatesAtMost most result }
{
    let codings = values_of(buffer, fields, b"transfer-encoding");
    if !matches!(codings, FieldValues::Absent) {
        return StatedLength::Malformed;
    }
    stated_length(buffer, fields, most)
}

/// The length that the Content-Length fields state, where at most `most` bytes are taken.
fn stated_length(buffer: &[u8], fields: &[HeaderSpan], most: usize) -> StatedLength
    requires small { most ≤ MAX_REPLY_BODY }
    requires fields { All (IsHeaderWithin (length buffer.now)) fields.now }
    ensures stated { result
        ≡ stated most (values_of (codes "content-length") (map (header_bytes buffer.now) fields.now)) }
    ensures limit { StatesAtMost most result }
{
    match values_of(buffer, fields, b"content-length") {
        FieldValues::Absent => StatedLength::Absent,
        FieldValues::One(value) => read_length(value.of(buffer), most),
        FieldValues::Several => StatedLength::Malformed,
    }
}

/// The length that one value states, where at most `most` bytes are taken.
fn read_length(value: &[u8], most: usize) -> StatedLength
    requires { most ≤ MAX_REPLY_BODY }
    ensures stated { result ≡ stated_by most value.now }
    ensures limit { StatesAtMost most result }
{
    match read_number(value, most as u64) {
        None => StatedLength::Malformed,
        Some(number) => {
            if number > most as u64 {
                return StatedLength::TooGreat;
            }
            StatedLength::Length(number as usize)
        }
    }
}
