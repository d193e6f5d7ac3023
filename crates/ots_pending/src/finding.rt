//! Finding the pair that a token asks for among those that are kept.
ghost use Rattle.std.specs.Prelude.{◌≡◌, IfOk};
ghost use Rattle.ots_pending.specs.Distinct.{AreDistinct};
ghost use Rattle.ots_pending.specs.Grown.{IsKnownAt, IsPairOf, KeepsPath};
ghost use Rattle.ots_pending.specs.Listed.{pairs_in, IsKept};
ghost use Rattle.ots_pending.specs.OnPath.{AreNumbers};

use crate::adding::key_of;
use crate::distinct::Distinct;
use crate::listing::Listing;
use crate::path::Path;
use crate::walk::{keep, known};
use ots_attest::Attestation;
use ots_base::OutOfMemory;
use ots_tree::Token;
use std::alloc::Global;

/// The place of the pair that a token at this depth asks for, where it is among those that are kept.
pub(crate) fn pair_of(
    alloc: Global,
    token: &Token,
    depth: u32,
    path: &mut Path<'_>,
    listing: &Listing,
) -> Result<Option<usize>, OutOfMemory>
    requires kept { IsKept listing.now }
    requires numbers { AreNumbers listing.now.messages path.old }
    ensures pair { IfOk result (IsPairOf (pairs_in listing.now) token.now depth path.old.messages) }
    ensures path { KeepsPath listing.now.messages path.old path.new }
{
    let Token::Attestation(Attestation::Pending(uri)) = token else {
        return Ok(None);
    };
    let Some(message) = known_at(path, depth as usize, &listing.messages)? else {
        return Ok(None);
    };
    let key = key_of(alloc, message, uri)?;
    Ok(listing.keys.place(&key))
}

/// The number of the message at a depth, where it has one. It is looked for once, and noted.
fn known_at(
    path: &mut Path<'_>,
    depth: usize,
    messages: &Distinct,
) -> Result<Option<usize>, OutOfMemory>
    requires distinct { AreDistinct messages.now }
    requires numbers { AreNumbers messages.now path.old }
    ensures number { IfOk result (IsKnownAt messages.now path.old.messages depth) }
    ensures path { KeepsPath messages.now path.old path.new }
{
    if let Some(number) = known(&path.numbers, depth) {
        return Ok(Some(number));
    }
    let Some(number) = path.messages.place(depth, messages)? else {
        return Ok(None);
    };
    keep(&mut path.numbers, depth, number);
    Ok(Some(number))
}
