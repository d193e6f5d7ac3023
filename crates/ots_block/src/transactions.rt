//! Where the transactions of a block lie.
ghost use Rattle.std.specs.Prelude.{length};
ghost use Rattle.ots_block.specs.Reading.{many_at, count_at};
ghost use Rattle.ots_block.specs.Ends.{laid_at, header_end, prefix_at, kept_at};
ghost use Rattle.ots_block.specs.Given.{Gives, GivesIn};

use crate::compact::read_compact;
use crate::fault::{BlockError, BlockReason};
use crate::fields::{read_transaction, skip_run};
use crate::places::Places;
use crate::stop::Stop;
use std::alloc::Global;

/// The places of the transactions of the block that these bytes are, in memory of `alloc`.
#[tactic(auto, unfolding(crate::specs::Ends::kept_at))]
pub(crate) fn read_places(alloc: Global, bytes: &[u8]) -> Result<Vec<Places>, BlockError>
    ensures { GivesIn (length bytes.now) (λ all. all.items) result (kept_at bytes.now) }
{
    let total = bytes.len();
    let (count, rest) = match read_prefix(bytes) {
        Ok(prefix) => prefix,
        Err(stop) => return Err(stop.in_block(total)),
    };
    let (all, rest) = read_transactions(alloc, total, count, rest)?;
    match rest {
        [] => Ok(all),
        [_, ..] => Err(Stop::at(rest, BlockReason::Rest).in_block(total)),
    }
}

/// The number of transactions, and the bytes after it.
#[tactic(auto, unfolding(crate::specs::Ends::prefix_at))]
fn read_prefix(bytes: &[u8]) -> Result<(usize, &[u8]), Stop>
    ensures { Gives (λ x. (x.0, x.1.now)) result (prefix_at bytes.now) }
{
    let rest = skip_header(bytes)?;
    read_count(rest)
}

/// The bytes after the six fields of a header.
#[tactic(auto, unfolding(crate::specs::Ends::header_end))]
fn skip_header(bytes: &[u8]) -> Result<&[u8], Stop>
    ensures { Gives (λ x. x.now) result (header_end bytes.now) }
{
    let rest = skip_run(bytes, 4)?;
    let rest = skip_run(rest, 32)?;
    let rest = skip_run(rest, 32)?;
    let rest = skip_run(rest, 4)?;
    let rest = skip_run(rest, 4)?;
    skip_run(rest, 4)
}

/// The number of transactions at the start of the bytes, and those after it.
#[tactic(auto, unfolding(crate::specs::Reading::count_at))]
fn read_count(bytes: &[u8]) -> Result<(usize, &[u8]), Stop>
    ensures { Gives (λ x. (x.0, x.1.now)) result (count_at bytes.now) }
{
    let (count, rest) = read_compact(bytes)?;
    if count == 0 {
        return Err(Stop::at(bytes, BlockReason::NoTransaction));
    }
    Ok((count, rest))
}

/// The places of `count` transactions at the start of these last bytes of a block of `total`, and
/// the bytes after them.
fn read_transactions(
    alloc: Global,
    total: usize,
    count: usize,
    bytes: &[u8],
) -> Result<(Vec<Places>, &[u8]), BlockError>
    ensures { GivesIn total (λ x. (x.0.items, x.1.now)) result (many_at laid_at count bytes.now) }
{
    let mut all = Vec::new(alloc);
    let mut rest = bytes;
    for _ in 0..count {
        let (places, after) = match read_transaction(rest) {
            Ok(found) => found,
            Err(stop) => return Err(stop.in_block(total)),
        };
        all.push(places)?;
        rest = after;
    }
    Ok((all, rest))
}
