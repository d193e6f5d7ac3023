//! Which transaction of a block holds a root.
ghost use Rattle.std.specs.Prelude.{◌≡◌, ◌<◌, ℕ, Ok, Err, IfOk, IfErr, length};
ghost use Rattle.ots_base.specs.Memory.{UnlessOutOfMemory};
ghost use Rattle.ots_anchor.specs.Find.{IsFound, IsFindError, HasNoTip, IsTooLong};
ghost use Rattle.ots_anchor.specs.Look.{IsLook, long_after};
ghost use Rattle.ots_anchor.specs.Standing.{AreStanding};

use crate::mark::{Mark, first_mark};
use crate::standing::standing_in;
use memchr::memmem::Finder;
use ots_base::{MAX_MESSAGE, OutOfMemory};
use ots_block::Block;
use std::alloc::{AllocFailed, Global};

/// Where a block holds a root.
#[derive(Clone, Copy, Debug, PartialEq, Eq)]
pub struct Found {
    /// The index of the root among those that were looked for, the last one where several are the
    /// same.
    pub which: usize,
    /// The index of the transaction in the block.
    pub transaction: usize,
    /// The first byte of the root in the transaction without its witness.
    pub place: usize,
}

/// Why no root was found.
#[derive(Clone, Copy, Debug, PartialEq, Eq)]
pub enum FindError {
    /// No transaction without its witness has a root in it.
    NoTip,
    /// Only transactions that have more than 4096 bytes without their witness have a root in them.
    /// The number is the length of the first of them.
    TransactionTooLong(u64),
    /// Memory ran out.
    OutOfMemory,
}

impl From<OutOfMemory> for FindError {
    ghost use Rattle.std.specs.Prelude.{◌≡◌};
    ghost use Rattle.ots_anchor.specs.declared.search.FindError.TheVariants.{OutOfMemory};

    ghost from_gives = { λ _ e. e ≡ OutOfMemory };

    fn from(_: OutOfMemory) -> FindError {
        FindError::OutOfMemory
    }
}

impl<T: Drop> From<AllocFailed<T>> for FindError {
    ghost use Rattle.std.specs.Prelude.{◌≡◌};
    ghost use Rattle.ots_anchor.specs.declared.search.FindError.TheVariants.{OutOfMemory};

    ghost from_gives = { λ _ e. e ≡ OutOfMemory };

    fn from(_: AllocFailed<T>) -> FindError {
        FindError::OutOfMemory
    }
}

/// Where the block holds one of these roots: of the transactions that have at most 4096 bytes
/// without their witness and a root among them the first, and in it the first place. An operation's
/// result is no longer, so no path leads through a longer one.
///
/// `NoTip` comes exactly where no transaction holds a root, and `TransactionTooLong` exactly where
/// only longer ones do.
///
/// All transactions without their witness are put side by side first, and a root that stands nowhere
/// there is not looked for in each of them. So it takes memory of `alloc` for a finder a root and as
/// much as the block has, and mostly the time of one search of the block a root.
pub fn find(alloc: Global, block: &Block, roots: &[[u8; 32]]) -> Result<Found, FindError>
    ensures ok { IfOk result (λ found. IsFound block.now roots.now found) }
    ensures err { IfErr result (λ e. IsFindError block.now roots.now e) }
    ensures finds { (found : Found) → IsFound block.now roots.now found
        → UnlessOutOfMemory FindError.OutOfMemory result (Ok found) }
    ensures no_tip { HasNoTip block.now roots.now → UnlessOutOfMemory FindError.OutOfMemory result
        (Err FindError.NoTip) }
    ensures too_long { (n : ℕ) → IsTooLong block.now roots.now n
        → UnlessOutOfMemory FindError.OutOfMemory result (Err (FindError.TransactionTooLong n)) }
{
    let finders = finders_of(alloc, roots)?;
    let standing = standing_in(alloc, block, &finders)?;
    find_by(block, &finders, &standing)
}

/// A finder of each root.
fn finders_of<'a>(alloc: Global, roots: &'a [[u8; 32]]) -> Result<Vec<Finder<'a>>, OutOfMemory>
    ensures { IfOk result (λ finders. finders.items ≡ roots.now) }
{
    let mut finders = Vec::with_capacity(alloc, roots.len())?;
    for root in roots {
        finders.push(Finder::new(root))?;
    }
    Ok(finders)
}

/// Where the block holds one of the roots of these finders.
fn find_by(block: &Block, finders: &[Finder], standing: &[bool]) -> Result<Found, FindError>
    requires { AreStanding block.now finders.now standing.now }
    ensures ok { IfOk result (λ found. IsFound block.now finders.now found) }
    ensures err { IfErr result (λ e. IsFindError block.now finders.now e) }
{
    let mut long = None;
    for transaction in 0..block.count() {
        match look_at(block, finders, standing, transaction)? {
            Look::Short(mark) => {
                return Ok(Found {
                    which: mark.which,
                    transaction,
                    place: mark.place,
                });
            }
            other => long = long_after(long, other),
        }
    }
    match long {
        Some(bytes) => Err(FindError::TransactionTooLong(bytes)),
        None => Err(FindError::NoTip),
    }
}

/// The length of the first long transaction that holds a root, after one transaction more.
fn long_after(long: Option<u64>, look: Look) -> Option<u64>
    ensures { result ≡ long_after long look }
{
    match (long, look) {
        (None, Look::Long(bytes)) => Some(bytes),
        _ => long,
    }
}

/// What a transaction holds.
#[derive(Clone, Copy)]
enum Look {
    /// No root.
    Nothing,
    /// A root, and its length without its witness is this, more than 4096 bytes.
    Long(u64),
    /// A root, first there, and it has at most 4096 bytes.
    Short(Mark),
}

/// What the transaction with this index holds of the roots of these finders.
fn look_at(
    block: &Block,
    finders: &[Finder],
    standing: &[bool],
    transaction: usize,
) -> Result<Look, OutOfMemory>
    requires inside { transaction < length block.now.transactions }
    requires standing { AreStanding block.now finders.now standing.now }
    ensures { IfOk result (λ look. IsLook block.now finders.now transaction look) }
{
    let form = block.stripped(transaction)?;
    Ok(match first_mark(&form, finders, standing) {
        None => Look::Nothing,
        Some(mark) if form.len() <= MAX_MESSAGE => Look::Short(mark),
        Some(_) => Look::Long(form.len() as u64),
    })
}
