//! The form of a line.
ghost use Rattle.std.specs.Prelude.{◌≡◌, ◌≤◌, ◌↔◌, ℕ, length, codes, IsTrue, IfNone, IfSome};
ghost use Rattle.ots_sheet.specs.Request.{HasLength, kind_word};
ghost use Rattle.ots_sheet.specs.Reply.{Answer, IsAnswer, reply_line};
ghost use Rattle.ots_replies.specs.inner.Shape.{AreWordsOf, HasShape, IsBody, IsMessage, IsOther, NoOutcome, TellsOutcome, TellsWords};

use crate::hexadecimal::is_hex;
use crate::words::{Words, words_of};
use ots_arguments::number;
use ots_base::{MAX_MESSAGE, MAX_REPLY_BODY};
use ots_calendar_url::scheme_of;
use ots_sheet::{Kind, POST_MESSAGE};

const OK: &[u8] = b"200";

const NOTHING: &[u8] = b"000";

const DASH: &[u8] = b"-";

/// A request and its reply, as a line tells them.
#[derive(Clone, Copy)]
pub(crate) struct Shape<'a> {
    pub(crate) kind: Kind,
    pub(crate) url: &'a [u8],
    /// The digits of the message.
    pub(crate) message: &'a [u8],
    pub(crate) outcome: Outcome<'a>,
}

/// What came of the request.
#[derive(Clone, Copy)]
pub(crate) enum Outcome<'a> {
    /// The digits of a body.
    Body(&'a [u8]),
    Status(u16),
    Nothing,
}

/// What a line tells, where it is of the form.
pub(crate) fn shape_of(line: &[u8]) -> Option<Shape<'_>>
    ensures some { IfSome result (HasShape line.now) }
    ensures short { IfSome result (λ s. length s.url.now ≤ length line.now) }
    ensures none { IfNone result ((a : Answer) → IsAnswer a → line.now ≡ reply_line a → ⊥) }
{
    shape_of_words(words_of(line)?)
}

/// What these words tell, where they are of the form.
fn shape_of_words(words: Words<'_>) -> Option<Shape<'_>>
    ensures some { IfSome result (TellsWords words.entry) }
    ensures none { IfNone result ((a : Answer) → IsAnswer a → AreWordsOf words.entry a → ⊥) }
{
    let kind = kind_of(words.kind)?;
    let _scheme = scheme_of(words.url)?;
    if !is_message(kind, words.message) {
        return None;
    }
    let outcome = outcome_of(words.code, words.body)?;
    Some(Shape {
        kind,
        url: words.url,
        message: words.message,
        outcome,
    })
}

/// The kind that a word names.
fn kind_of(word: &[u8]) -> Option<Kind>
    ensures some { IfSome result (λ kind. word.now ≡ kind_word kind) }
    ensures none { IfNone result ((kind : Kind) → word.now ≡ kind_word kind → ⊥) }
{
    match word {
        b"get" => Some(Kind::Get),
        b"post" => Some(Kind::Post),
        _ => None,
    }
}

/// Whether these are the digits of a message of this kind.
fn is_message(kind: Kind, digits: &[u8]) -> bool
    ensures { IsTrue result ↔ IsMessage kind digits.now }
{
    has_length(kind, digits.len() / 2) && is_hex(digits)
}

/// Whether a message of this kind may have so many bytes.
fn has_length(kind: Kind, count: usize) -> bool
    ensures { IsTrue result ↔ HasLength kind count }
{
    match kind {
        Kind::Get => 1 <= count && count <= MAX_MESSAGE,
        Kind::Post => count == POST_MESSAGE,
    }
}

/// What came of the request, by the code and what follows it.
fn outcome_of<'a>(code: &[u8], body: &'a [u8]) -> Option<Outcome<'a>>
    ensures some { IfSome result (TellsOutcome code.now body.now) }
    ensures none { IfNone result (NoOutcome code.now body.now) }
{
    if body == DASH {
        return outcome_without_body(code);
    }
    if code == OK && is_body(body) {
        return Some(Outcome::Body(body));
    }
    None
}

/// The same where no body follows.
fn outcome_without_body<'a>(code: &[u8]) -> Option<Outcome<'a>>
    ensures some { IfSome result (TellsOutcome code.now (codes "-")) }
    ensures none { IfNone result (NoOutcome code.now (codes "-")) }
{
    if code == NOTHING {
        return Some(Outcome::Nothing);
    }
    match status_of(code) {
        Some(status) => Some(Outcome::Status(status)),
        None => None,
    }
}

/// Whether these are the digits of a body.
fn is_body(digits: &[u8]) -> bool
    ensures { IsTrue result ↔ IsBody digits.now }
{
    let count = digits.len() / 2;
    if count == 0 || count > MAX_REPLY_BODY {
        return false;
    }
    is_hex(digits)
}

/// The status other than 200 that this is the text of.
fn status_of(code: &[u8]) -> Option<u16>
    ensures some { IfSome result (IsOther code.now) }
    ensures none { IfNone result ((status : ℕ) → IsOther code.now status → ⊥) }
{
    let word = str::from_utf8(code).ok()?;
    match number(word, 100, 599) {
        Some(200) => None,
        Some(status) => Some(status as u16),
        None => None,
    }
}
