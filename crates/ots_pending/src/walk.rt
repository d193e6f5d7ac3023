//! A walk over the tokens of a tree that comes to the pairs of its pending paths.
ghost use Rattle.std.specs.Prelude.{◌≡◌, ◌≤◌, ◌<◌, ◌^◌, [], ◌∷◌, IfOk, IfSome, OnOk, Some};
ghost use Rattle.std.specs.List.{slice_get};
ghost use Rattle.ots_pending.specs.Distinct.{AreDistinct};
ghost use Rattle.ots_pending.specs.Listed.{IsKept};
ghost use Rattle.ots_pending.specs.OnPath.{kept_at, AreNumbers, Follows, Notes, Numbers};

use crate::adding::add;
use crate::distinct::Distinct;
use crate::listing::Listing;
use crate::path::Path;
use ots_attest::Attestation;
use ots_base::OutOfMemory;
use ots_tree::Token;
use std::alloc::Global;

/// Adds the pair that a token at this depth asks for, where it is a pending attestation.
pub(crate) fn note(
    alloc: Global,
    token: &Token,
    depth: u32,
    path: &mut Path<'_>,
    listing: &mut Listing,
) -> Result<(), OutOfMemory>
    requires kept { IsKept listing.old }
    requires numbers { AreNumbers listing.old.messages path.old }
    ensures { OnOk result (Notes listing.old listing.new path.old path.new token.now depth) }
{
    let Token::Attestation(Attestation::Pending(uri)) = token else {
        return Ok(());
    };
    match number_at(alloc, path, depth as usize, &mut listing.messages)? {
        Some(message) => add(alloc, listing, uri, message, depth),
        None => Ok(()),
    }
}

/// The number of the message at a depth, where there is one. It is looked for once, and noted.
fn number_at(
    alloc: Global,
    path: &mut Path<'_>,
    depth: usize,
    messages: &mut Distinct,
) -> Result<Option<usize>, OutOfMemory>
    requires distinct { AreDistinct messages.old }
    requires numbers { AreNumbers messages.old path.old }
    ensures { IfOk result (Numbers messages.old messages.new path.old path.new depth) }
{
    if let Some(number) = known(&path.numbers, depth) {
        return Ok(Some(number));
    }
    let Some(number) = path.messages.number(alloc, depth, messages)? else {
        return Ok(None);
    };
    keep(&mut path.numbers, depth, number);
    Ok(Some(number))
}

/// The number that is noted at a depth, if one is.
pub(crate) fn known(numbers: &[Option<usize>], depth: usize) -> Option<usize>
    ensures { IfSome result (λ number. slice_get numbers.now depth ≡ Some (Some number)) }
{
    *numbers.get(depth)?
}

/// Notes a number at a depth.
pub(crate) fn keep(numbers: &mut [Option<usize>], depth: usize, number: usize)
    ensures { numbers.new ≡ kept_at numbers.old depth number }
{
    if depth < numbers.len() {
        numbers[depth] = Some(number);
    }
}

/// Goes on after a token at a depth. The result of an operation has no number yet.
pub(crate) fn follow<'a>(
    token: &'a Token,
    depth: usize,
    path: &mut Path<'a>,
) -> Result<(), OutOfMemory>
    requires { depth < 2 ^ 32 }
    ensures { OnOk result (Follows token.now depth path.old path.new) }
{
    let Token::Op(op) = token else {
        return Ok(());
    };
    path.messages.follow(op, depth)?;
    path.numbers.truncate(depth + 1);
    if path.numbers.len() == depth + 1 {
        path.numbers.push(None)?;
    }
    Ok(())
}
