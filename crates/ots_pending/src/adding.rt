//! Finding a pair, and adding one.
ghost use Rattle.std.specs.Prelude.{◌≡◌, ◌≤◌, ◌<◌, ◌^◌, ℕ, List, [], length, IfOk, OnOk, Some};
ghost use Rattle.std.specs.List.{slice_get};
ghost use Rattle.ots_pending.specs.Listed.{key_of, pairs_in, put_at, raised_at, Adds, IsKept};

use crate::distinct::Distinct;
use crate::kept_pair::KeptPair;
use crate::listing::Listing;
use ots_attest::Uri;
use ots_base::OutOfMemory;
use std::alloc::Global;

/// No pair yet.
pub(crate) fn no_pairs(alloc: Global) -> Listing
    ensures kept { IsKept result }
    ensures none { pairs_in result ≡ [] }
{
    Listing {
        messages: Distinct::new(alloc),
        keys: Distinct::new(alloc),
        asked: Vec::new(alloc),
    }
}

/// Adds a pair of this URI and the message with this number, with `depth` operations before it. Where
/// it is there, it is as deep as the deeper one.
pub(crate) fn add(
    alloc: Global,
    listing: &mut Listing,
    uri: &Uri,
    message: usize,
    depth: u32,
) -> Result<(), OutOfMemory>
    requires { IsKept listing.old }
    ensures { OnOk result ((m : List ℕ) → slice_get listing.old.messages message ≡ Some m
        → Adds listing.old listing.new (record { pair = record { uri = uri.now; message = m }; depth = depth })) }
{
    let key = key_of(alloc, message, uri)?;
    let asked = KeptPair {
        uri: uri.copy()?,
        message,
        depth,
    };
    let place = listing.keys.number(alloc, &key)?;
    put(&mut listing.asked, place, asked)
}

/// Puts a pair at the place after the others, or makes the one that is at its place as deep as it.
fn put(pairs: &mut Vec<KeptPair>, place: usize, asked: KeptPair) -> Result<(), OutOfMemory>
    ensures { OnOk result (pairs.new.items ≡ put_at pairs.old.items place asked) }
{
    if place < pairs.len() {
        raise(pairs, place, asked.depth);
        return Ok(());
    }
    pairs.push(asked)?;
    Ok(())
}

/// Makes a pair as deep as this, where it is not as deep.
fn raise(asked: &mut [KeptPair], place: usize, depth: u32)
    requires { place < length asked.old }
    ensures { asked.new ≡ raised_at asked.old place depth }
{
    if asked[place].depth < depth {
        asked[place].depth = depth;
    }
}

/// The key of the pair of a URI and the message with this number.
pub(crate) fn key_of(alloc: Global, message: usize, uri: &Uri) -> Result<Vec<u8>, OutOfMemory>
    ensures is { IfOk result (λ key. key.items ≡ key_of message uri.now) }
    ensures short { IfOk result (λ key. length key.items ≤ 1008) }
    ensures fits { message < 2 ^ 64 }
{
    let number = (message as u64).to_le_bytes();
    let mut key = Vec::from_slice(alloc, &number)?;
    key.extend_from_slice(uri.text().as_bytes())?;
    Ok(key)
}
