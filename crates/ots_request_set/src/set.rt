//! Sets of requests.
ghost use Rattle.std.specs.Prelude.{◌≡◌, ◌≢◌, ◌↔◌, ◌<◌, ◌≤◌, ℕ, List, [], All, decimal, length, map, IfNone, IfOk, IfSome, IsTrue, OnErr, OnOk};
ghost use Rattle.std.specs.List.{AllByRecursion, slice_get};
ghost use Rattle.ots_calendar_url.specs.CalendarUrl.{text_of};
ghost use Rattle.ots_calendar_url.specs.UrlList.{AreUrls};
ghost use Rattle.ots_sheet.specs.Request.{HasLength, IsRequest, request_line, request_parts};
ghost use Rattle.ots_sheet.specs.Sheet.{AreInOrder, FitsSheet};
ghost use Rattle.ots_request_set.specs.RequestSet.{Adds, count_of, request_to, text_at};
ghost use Rattle.ots_request_set.specs.inner.Key.{line_length, sum_line_length};

use crate::key::{key_of, kind_byte, rank_of, request_of};
use ots_address::MAX_CALENDARS;
use ots_base::OutOfMemory;
use ots_calendar_url::CalendarUrl;
use ots_sheet::{Kind, MAX_LINES, MAX_SHEET, Request};
use std::alloc::Global;
use std::collections::BTreeSet;
use std::marker::Model;

/// The distinct requests of many proofs to the calendars of one list.
///
/// Contracts see the list of URLs, and the requests in the order of a sheet, each once.
#[derive(Drop)]
pub struct RequestSet {
    alloc: Global,
    urls: Vec<CalendarUrl>,
    // How many of the requests are of each URL.
    counts: [usize; MAX_CALENDARS],
    keys: BTreeSet<Vec<u8>>,
    // How many bytes the lines of all have, or `u64::MAX` where there are more.
    bytes: u64,
}

impl Model for RequestSet {
    ghost use Rattle.std.specs.Prelude.{map};
    ghost use Rattle.ots_calendar_url.specs.CalendarUrl.{text_of};
    ghost use Rattle.ots_request_set.specs.RequestSet.{Asked};
    ghost use Rattle.ots_request_set.specs.inner.Key.{IsKept, requests_of};

    ghost Value = { Asked };

    ghost view = { λ s. record { urls = s.urls.items; requests = requests_of (map text_of s.urls.items) (map (λ k. k.items) s.keys.keys) } };

    ghost invariant = { λ s. IsKept (map text_of s.urls.items) (map (λ k. k.items) s.keys.keys) s.counts s.bytes };
}

impl RequestSet {
    /// No request yet, to the calendars of these URLs, as `read_urls` of `ots_calendar_url` gives them.
    pub fn new(alloc: Global, urls: Vec<CalendarUrl>) -> RequestSet
        requires { AreUrls (map text_of urls.items) }
        ensures urls { result.urls ≡ urls.items }
        ensures none { result.requests ≡ [] }
    {
        RequestSet {
            alloc,
            urls,
            counts: [0; MAX_CALENDARS],
            keys: BTreeSet::new(alloc),
            bytes: 0,
        }
    }

    /// Adds a request of this kind to the URL at a place of the list: for a `post` the 32 bytes of a
    /// digest, for a `get` a commitment of 1 to 4,096 bytes. Where it is there already, nothing changes,
    /// and where memory ran out, neither.
    ///
    /// It takes memory for the message of a new request, and time by the logarithm of their number.
    pub fn add(&mut self, kind: Kind, url: usize, message: &[u8]) -> Result<(), OutOfMemory>
        requires place { url < length self.old.urls }
        requires long { HasLength kind (length message.now) }
        ensures added { OnOk result (Adds self.old self.new (request_to self.old kind url message.now)) }
        ensures as_before { OnErr result (self.new ≡ self.old) }
    {
        let text = self.urls[url].text();
        let head = [kind_byte(kind), rank_of(&self.urls, text), url as u8];
        let line = line_length(kind, text, message);
        let key = key_of(self.alloc, head, message)?;
        let before = self.keys.len();
        self.keys.insert(key)?;
        if self.keys.len() == before {
            return Ok(());
        }
        self.counts[url] += 1;
        self.bytes = self.bytes.saturating_add(line);
        Ok(())
    }

    /// The URLs of the list.
    pub fn urls(&self) -> &[CalendarUrl]
        ensures urls { result.now ≡ self.now.urls }
        ensures good { AreUrls (map text_of self.now.urls) }
    {
        &self.urls
    }

    /// The place in the list of the URL with this very text.
    pub fn place_of(&self, url: &str) -> Option<usize>
        ensures some { IfSome result (λ place. slice_get (map text_of self.now.urls) place ≡ Some url.now) }
        ensures none { IfNone result (All (λ (text : List ℕ). text ≢ url.now) (map text_of self.now.urls)) }
    {
        place_among(&self.urls, url)
    }

    /// How many requests there are.
    pub fn len(&self) -> usize
        ensures { result ≡ length self.now.requests }
    {
        self.keys.len()
    }

    /// How many of the requests are to the URL at a place of the list.
    pub fn count(&self, url: usize) -> usize
        requires { url < length self.now.urls }
        ensures { result ≡ count_of (text_at self.now url) self.now.requests }
    {
        let counts = &self.counts;
        counts[url]
    }

    /// Whether the sheet of all requests is within the limits of sheets: at most 1,048,575 requests, and
    /// 268,435,456 bytes with the last line.
    pub fn is_within(&self) -> bool
        ensures { IsTrue result ↔ FitsSheet (map request_line self.now.requests) }
    {
        let count = self.keys.len();
        count < MAX_LINES && self.bytes <= (MAX_SHEET - sum_line_length(count)) as u64
    }

    /// All requests in the order of a sheet, as `write_requests` of `ots_sheet` takes them. They are
    /// valid, and the sheet of them can be read where [`RequestSet::is_within`] says so.
    pub fn requests(&self, alloc: Global) -> Result<Vec<Request<'_>>, OutOfMemory>
        ensures all { IfOk result (λ requests. map request_parts requests.items ≡ self.now.requests) }
        ensures valid { AllByRecursion IsRequest self.now.requests }
        ensures order { AreInOrder self.now.requests }
    {
        let mut requests = Vec::with_capacity(alloc, self.keys.len())?;
        for key in &self.keys {
            requests.push(request_of(&self.urls, key))?;
        }
        Ok(requests)
    }
}

/// The place of the URL with this text.
fn place_among(urls: &[CalendarUrl], text: &str) -> Option<usize>
    ensures some { IfSome result (λ place. slice_get (map text_of urls.now) place ≡ Some text.now) }
    ensures none { IfNone result (All (λ (other : List ℕ). other ≢ text.now) (map text_of urls.now)) }
{
    for (place, url) in urls.iter().enumerate() {
        if url.text() == text {
            return Some(place);
        }
    }
    None
}

/// How many bytes the line of a request has, with its line feed: the word, the URL and two digits for
/// each byte of the message, with blanks between.
fn line_length(kind: Kind, url: &str, message: &[u8]) -> u64
    requires { HasLength kind (length message.now) }
    ensures { result ≡ line_length (record { kind = kind; url = url.now; message = message.now }) }
{
    (kind.word().len() + url.len() + 2 * message.len() + 3) as u64
}

/// How many bytes the last line of a sheet with so many requests has, with its line feed.
fn sum_line_length(count: usize) -> usize
    requires { count < MAX_LINES }
    ensures { result ≡ sum_line_length count }
{
    digits(count) + 70
}

/// How many decimal digits a number has.
fn digits(number: usize) -> usize
    ensures { result ≡ length (decimal number) }
{
    match (number as u64).checked_ilog10() {
        Some(power) => power as usize + 1,
        None => 1,
    }
}
