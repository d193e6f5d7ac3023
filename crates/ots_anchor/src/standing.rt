//! Which roots stand somewhere in a block.
ghost use Rattle.std.specs.Prelude.{◌≡◌, IfOk};
ghost use Rattle.std.specs.List.{concat};
ghost use Rattle.ots_block.specs.Block.{stripped_forms};
ghost use Rattle.ots_anchor.specs.Standing.{AreStanding};

use memchr::memmem::Finder;
use ots_base::OutOfMemory;
use ots_block::Block;
use std::alloc::Global;

/// For the root of each finder whether it stands in the transactions without their witness, one
/// after the other. Where it doesn't, it stands in none of them. Where it does, it may stand across
/// an end of one.
pub(crate) fn standing_in(
    alloc: Global,
    block: &Block,
    finders: &[Finder],
) -> Result<Vec<bool>, OutOfMemory>
    ensures { IfOk result (λ standing. AreStanding block.now finders.now standing.items) }
{
    let forms = forms_of(alloc, block)?;
    let mut standing = Vec::with_capacity(alloc, finders.len())?;
    for finder in finders {
        standing.push(finder.find(&forms).is_some())?;
    }
    Ok(standing)
}

/// The transactions without their witness, one after the other.
fn forms_of(alloc: Global, block: &Block) -> Result<Vec<u8>, OutOfMemory>
    ensures { IfOk result (λ forms. forms.items ≡ concat (stripped_forms block.now)) }
{
    let mut forms = Vec::new(alloc);
    for transaction in 0..block.count() {
        forms.extend_from_slice(&block.stripped(transaction)?)?;
    }
    Ok(forms)
}
