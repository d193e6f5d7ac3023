//! Lists of calendar URLs.
ghost use Rattle.std.specs.Prelude.{◌≡◌, ◌≢◌, ℕ, List, true, false, map, All, IfOk, IfErr, IfSome, IfNone};
ghost use Rattle.std.specs.Option.{option_copied};
ghost use Rattle.ots_address.specs.AddressList.{CutsPiece};
ghost use Rattle.ots_calendar_url.specs.declared.list.UrlError.TheVariants.{OutOfMemory};
ghost use Rattle.ots_calendar_url.specs.CalendarUrl.{IsUrl, text_of};
ghost use Rattle.ots_calendar_url.specs.UrlList.{IfBadUrl, IsListOf, IsNext};
ghost use Rattle.ots_calendar_url.specs.inner.Reading.{IsRefusal};

use crate::url::{CalendarUrl, Scheme, scheme_of};
use ots_address::MAX_CALENDARS;
use std::alloc::{AllocError, AllocFailed, Global};

/// Why a text is no list of calendar URLs.
#[derive(Clone, Copy, Debug, PartialEq, Eq)]
pub enum UrlError {
    /// The first piece that is no URL of the form, repeats an earlier one or is the 17th.
    BadAddress {
        /// The place of its first byte, counted from 0.
        place: usize,
    },
    /// Memory ran out.
    OutOfMemory,
}

impl From<AllocError> for UrlError {
    ghost from_gives = { λ _ e. e ≡ OutOfMemory };

    fn from(_: AllocError) -> Self {
        UrlError::OutOfMemory
    }
}

impl From<AllocFailed<CalendarUrl>> for UrlError {
    ghost from_gives = { λ _ e. e ≡ OutOfMemory };

    fn from(_: AllocFailed<CalendarUrl>) -> Self {
        UrlError::OutOfMemory
    }
}

/// The calendar URLs of a list with commas between: 1 to `MAX_CALENDARS` of `ots_address`.
///
/// `BadAddress` comes at the first piece that is no URL as of [`scheme_of`]; or that has the text of
/// an earlier one; or is the 17th. So the empty list is bad at 0.
pub fn read_urls(alloc: Global, list: &str) -> Result<Vec<CalendarUrl>, UrlError>
    ensures ok { IfOk result (λ urls. IsListOf list.now urls.items) }
    ensures bad { IfErr result (IfBadUrl list.now) }
{
    let mut urls = Vec::new(alloc);
    let mut place = 0;
    let mut rest = Some(list);
    while let Some(text) = rest {
        let (piece, after) = cut_piece(text);
        let url = read_next(alloc, &urls, piece, place)?;
        urls.push(url)?;
        place += piece.len() + 1;
        rest = after;
    }
    Ok(urls)
}

/// The first piece of a text, and what follows the comma after it.
fn cut_piece(text: &str) -> (&str, Option<&str>)
    ensures { CutsPiece text.now result.0.now (option_copied result.1) }
{
    match text.split_once(',') {
        Some((piece, rest)) => (piece, Some(rest)),
        None => (text, None),
    }
}

/// The URL of a piece that stands at this place after these URLs.
fn read_next(
    alloc: Global,
    before: &[CalendarUrl],
    piece: &str,
    place: usize,
) -> Result<CalendarUrl, UrlError>
    ensures ok { IfOk result (λ url. (url.text ≡ piece.now) × IsUrl url.text url.scheme
        × IsNext (map text_of before.now) piece.now) }
    ensures bad { IfErr result (IsRefusal (map text_of before.now) piece.now place) }
{
    match next_scheme(before, piece) {
        Some(scheme) => Ok(CalendarUrl {
            text: String::from_str(alloc, piece)?,
            scheme,
        }),
        None => Err(UrlError::BadAddress { place }),
    }
}

/// The scheme of a piece, where it is the next URL after these.
fn next_scheme(before: &[CalendarUrl], piece: &str) -> Option<Scheme>
    ensures some { IfSome result (IsUrl piece.now) }
    ensures next { IfSome result (λ scheme. IsNext (map text_of before.now) piece.now) }
    ensures none { IfNone result (¬ (IsNext (map text_of before.now) piece.now)) }
{
    if before.len() >= MAX_CALENDARS || has_text(before, piece) {
        return None;
    }
    scheme_of(piece.as_bytes())
}

/// Whether one of the URLs has this text.
fn has_text(urls: &[CalendarUrl], text: &str) -> bool
    ensures no { result ≡ false → All (λ (earlier : List ℕ). earlier ≢ text.now) (map text_of urls.now) }
    ensures yes { result ≡ true → ¬ (All (λ (earlier : List ℕ). earlier ≢ text.now) (map text_of urls.now)) }
{
    for url in urls {
        if url.text() == text {
            return true;
        }
    }
    false
}
