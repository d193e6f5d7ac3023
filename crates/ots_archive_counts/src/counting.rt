//! Counting what came of the requests to each calendar.
ghost use Rattle.std.specs.Prelude.{◌≡◌, ◌<◌, ◌++◌, ◌∷◌, [], List, Some, map, length, IfOk, OnOk};
ghost use Rattle.std.specs.List.{slice_get};
ghost use Rattle.ots_archive_counts.specs.Counts.{AreCounts, IsCameOf, Seen, counted, counts_of};
ghost use Rattle.ots_archive_counts.specs.inner.Tally.{HasRoom, IsSmall, IsTally, TalliesAnswers, one_more};
ghost use Rattle.ots_sheet.specs.Reply.{Answer};

use crate::came::{Came, came_of};
use ots_archive_text::ReplyCounts;
use ots_base::OutOfMemory;
use ots_replies::Replies;
use std::alloc::Global;
use std::collections::BTreeMap;

/// What came of the requests to one calendar.
#[derive(Clone, Copy)]
pub struct AddressCounts<'a> {
    /// The bytes of its URL.
    pub address: &'a [u8],
    /// How many requests came to what.
    pub counts: ReplyCounts,
}

/// The counts of each calendar to which some request of a sheet is, in the order of the bytes of their
/// URLs: how many requests have a timestamp, another status or no reply, and a body that is none.
///
/// Each body is read once, and its tree let go. It takes memory for an entry of each calendar.
pub fn counts(alloc: Global, replies: &Replies) -> Result<Vec<AddressCounts<'_>>, OutOfMemory>
    ensures { IfOk result (λ list. AreCounts replies.now (map counted list.items)) }
{
    let tally = tally_of(alloc, replies)?;
    let mut list = Vec::with_capacity(alloc, tally.len())?;
    for (address, counts) in &tally {
        list.push(AddressCounts {
            address: *address,
            counts: *counts,
        })?;
    }
    Ok(list)
}

/// The counts under each URL.
fn tally_of(alloc: Global, replies: &Replies) -> Result<BTreeMap<&[u8], ReplyCounts>, OutOfMemory>
    ensures { IfOk result (TalliesAnswers replies.now) }
{
    let mut tally = BTreeMap::new(alloc);
    for at in 0..replies.len() {
        let came = came_at(alloc, replies, at)?;
        add(&mut tally, replies.request(at).url, came)?;
    }
    Ok(tally)
}

/// What came of the request at this place.
fn came_at(alloc: Global, replies: &Replies, at: usize) -> Result<Came, OutOfMemory>
    requires { at < length replies.now }
    ensures { IfOk result (λ came. (a : Answer) → slice_get replies.now at ≡ Some a
        → IsCameOf (length a.request.message) a.reply came) }
{
    let _good = replies.len();
    let length = replies.request(at).message.len() as u32;
    came_of(alloc, length, replies.reply(at))
}

/// Counts one request more to a URL.
fn add<'a>(
    tally: &mut BTreeMap<&'a [u8], ReplyCounts>,
    url: &'a [u8],
    came: Came,
) -> Result<(), OutOfMemory>
    requires { HasRoom tally.old }
    ensures { OnOk result ((seen : List Seen) → IsTally seen tally.old
        → IsTally (seen ++ record { url = url.now; came = came } ∷ []) tally.new) }
{
    let before = counts_at(tally, url);
    tally.insert(url, one_more(before, came))?;
    Ok(())
}

/// The counts under a URL, or no request yet.
fn counts_at<'a>(tally: &BTreeMap<&'a [u8], ReplyCounts>, url: &'a [u8]) -> ReplyCounts
    ensures { (seen : List Seen) → IsTally seen tally.now → result ≡ counts_of url.now seen }
{
    match tally.get(&url) {
        Some(counts) => *counts,
        None => ReplyCounts {
            ok: 0,
            no: 0,
            bad: 0,
        },
    }
}

/// Counts with one request more that came to this.
fn one_more(counts: ReplyCounts, came: Came) -> ReplyCounts
    requires { IsSmall counts }
    ensures { result ≡ one_more counts came }
{
    let ReplyCounts { ok, no, bad } = counts;
    match came {
        Came::Timestamp => ReplyCounts {
            ok: ok + 1,
            no,
            bad,
        },
        Came::Refused => ReplyCounts {
            ok,
            no: no + 1,
            bad,
        },
        Came::BadBody => ReplyCounts {
            ok,
            no,
            bad: bad + 1,
        },
    }
}
