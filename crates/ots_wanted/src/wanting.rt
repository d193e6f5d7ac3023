//! What a proof wants of the calendars of a list.
ghost use Rattle.std.specs.Prelude.{◌≡◌, IfOk, OnErr, length};
ghost use Rattle.ots_wanted.specs.Wanted.{Gains, GainsWanted, TakesWanted, address_of, texts_of};
ghost use Rattle.ots_wanted.specs.inner.Asking.{AreFit, HasAddress, IsAskedBy, TakesPair, TakesPairs};
ghost use Rattle.ots_wanted.specs.inner.Asking.{request_of, wanted_of};
ghost use Rattle.ots_sheet.specs.Request.{HasLength};

use ots_base::OutOfMemory;
use ots_draft::{draft_operations, post_address};
use ots_pending::{Pairs, has_bitcoin, pending_pairs};
use ots_request_set::RequestSet;
use ots_sheet::Kind;
use ots_tree::Detached;
use std::alloc::Global;

/// Adds what a proof wants to the requests of a set: of a draft a `post` for each address and message with which it
/// waits to be sent, and of another proof a `get` for each URI and message at which it is pending, where the address is
/// one of the set's URLs, letter for letter. A proof with a Bitcoin path wants nothing, unless `all` are asked for.
///
/// It tells how many pairs of the proof have another address. Once the sheet of the set is past the limits, nothing
/// more is added, but pairs are counted still. Where memory ran out, some of the requests may have been added.
///
/// While it runs it holds the canonical form of the proof in memory of `alloc`, and then the proof's pairs.
pub fn add_wanted(
    alloc: Global,
    proof: &Detached,
    all: bool,
    set: &mut RequestSet,
) -> Result<u64, OutOfMemory>
    ensures takes { IfOk result (TakesWanted set.old set.new all proof.now) }
    ensures gains { GainsWanted set.old set.new all proof.now }
{
    let Some(kind) = how_asked(alloc, proof, all)? else {
        return Ok(0);
    };
    let pairs = pending_pairs(alloc, proof)?;
    add_pairs(kind, &pairs, set)
}

/// How a proof is asked for, or `None` where it wants nothing.
fn how_asked(alloc: Global, proof: &Detached, all: bool) -> Result<Option<Kind>, OutOfMemory>
    ensures { IfOk result (IsAskedBy all proof.now) }
{
    if has_bitcoin(&proof.tree) {
        return Ok(if all { Some(Kind::Get) } else { None });
    }
    match draft_operations(alloc, proof)? {
        Some(_) => Ok(Some(Kind::Post)),
        None => Ok(Some(Kind::Get)),
    }
}

/// Adds the requests for these pairs, and tells how many of them have another address.
fn add_pairs(kind: Kind, pairs: &Pairs, set: &mut RequestSet) -> Result<u64, OutOfMemory>
    requires { AreFit kind pairs.now }
    ensures takes { IfOk result (TakesPairs set.old set.new kind pairs.now) }
    ensures gains { Gains set.old set.new (wanted_of (texts_of set.old) kind pairs.now) }
{
    let mut skipped = 0;
    for i in 0..pairs.len() {
        let uri = pairs.uri(i).text();
        let message = pairs.message(i).bytes();
        if !add_pair(kind, uri, message, set)? {
            skipped += 1;
        }
    }
    Ok(skipped)
}

/// Adds the request for a pair, where its address is one of the set's URLs, and tells whether it is.
fn add_pair(
    kind: Kind,
    uri: &str,
    message: &[u8],
    set: &mut RequestSet,
) -> Result<bool, OutOfMemory>
    requires address { HasAddress kind uri.now }
    requires long { HasLength kind (length message.now) }
    ensures takes { IfOk result (TakesPair set.old set.new (request_of kind uri.now message.now)) }
    ensures as_before { OnErr result (set.new ≡ set.old) }
{
    let Some(place) = set.place_of(address_of(kind, uri)) else {
        return Ok(false);
    };
    if set.is_within() {
        set.add(kind, place, message)?;
    }
    Ok(true)
}

/// The address that a URI names.
fn address_of(kind: Kind, uri: &str) -> &str
    requires { HasAddress kind uri.now }
    ensures { result.now ≡ address_of kind uri.now }
{
    match kind {
        Kind::Get => uri,
        Kind::Post => post_address(uri).unwrap(),
    }
}
