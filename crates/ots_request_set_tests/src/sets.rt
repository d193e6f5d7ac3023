//! That requests are added and given out with ample memory, in the order that `sort` gives their lines
//! in the C locale, and that a full sheet is told from one request more.
use ots_base::MAX_MESSAGE;
use ots_calendar_url::{UrlError, read_urls};
use ots_request_set::RequestSet;
use ots_sheet::{Kind, MAX_LINES, POST_MESSAGE};
use std::alloc::Global;
use std::test::Fail;

const ALICE: &[u8] = b"https://alice.example";

const BOB: &[u8] = b"http://bob.example:14788";

/// Bob stands second in the list and first among texts, since `:` comes before `s`.
const LIST: &str = "https://alice.example,http://bob.example:14788";

/// A set of requests to the calendars of a list.
fn set_of(alloc: Global, list: &str) -> Result<RequestSet, UrlError> {
    let urls = read_urls(alloc, list)?;
    Ok(RequestSet::new(alloc, urls))
}

/// Adds a request, and tells whether it could be.
fn add(set: &mut RequestSet, kind: Kind, url: usize, message: &[u8]) -> bool {
    if url >= set.urls().len() {
        return false;
    }
    match kind {
        Kind::Get => {
            !message.is_empty()
                && message.len() <= MAX_MESSAGE
                && set.add(Kind::Get, url, message).is_ok()
        }
        Kind::Post => { message.len() == POST_MESSAGE && set.add(Kind::Post, url, message).is_ok() }
    }
}

/// How many of the requests are to the URL at a place of the list.
fn count(set: &RequestSet, url: usize) -> usize {
    if url < set.urls().len() {
        set.count(url)
    } else {
        0
    }
}

/// Adds six requests, of which four are distinct.
fn add_six(set: &mut RequestSet) -> bool {
    add(set, Kind::Post, 1, &[7; POST_MESSAGE])
        && add(set, Kind::Get, 0, &[9])
        && add(set, Kind::Get, 1, &[1, 0])
        && add(set, Kind::Get, 1, &[1])
        && add(set, Kind::Get, 0, &[9])
        && add(set, Kind::Post, 1, &[7; POST_MESSAGE])
}

#[test]
fn requests_come_in_the_order_of_their_lines(rt: HostRuntime) -> Result<(), Fail> {
    let mut set = set_of(rt.alloc(), LIST)?;
    assert!(rt; add_six(&mut set));
    let wanted: [(Kind, &[u8], &[u8]); 4] = [
        (Kind::Get, BOB, &[1]),
        (Kind::Get, BOB, &[1, 0]),
        (Kind::Get, ALICE, &[9]),
        (Kind::Post, BOB, &[7; POST_MESSAGE]),
    ];
    let requests = set.requests(rt.alloc())?;
    assert_eq!(rt; requests.len(), wanted.len());
    for (request, (kind, url, message)) in requests.iter().zip(wanted.iter()) {
        assert!(rt; request.kind == *kind && request.url == *url && request.message == *message);
    }
    Ok(())
}

#[test]
fn each_request_counts_once_at_its_url(rt: HostRuntime) -> Result<(), Fail> {
    let mut set = set_of(rt.alloc(), LIST)?;
    assert!(rt; add_six(&mut set));
    assert_eq!(rt; set.len(), 4);
    assert_eq!(rt; count(&set, 0), 1);
    assert_eq!(rt; count(&set, 1), 3);
    assert_eq!(rt; set.place_of("http://bob.example:14788"), Some(1));
    assert_eq!(rt; set.place_of("http://bob.example"), None);
    assert!(rt; set.is_within());
    Ok(())
}

#[test]
fn a_full_sheet_takes_no_request_more(rt: HostRuntime) -> Result<(), Fail> {
    let mut set = set_of(rt.alloc(), LIST)?;
    for number in 1..MAX_LINES as u32 {
        assert!(rt; add(&mut set, Kind::Get, 0, &number.to_be_bytes()));
    }
    assert!(rt; set.is_within());
    assert!(rt; add(&mut set, Kind::Get, 0, &[0]));
    assert!(rt; !set.is_within());
    Ok(())
}
