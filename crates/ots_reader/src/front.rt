//! The tokens of a tree that have come.
ghost use Rattle.std.specs.Prelude.{◌≡◌, ◌<◌, ◌+◌, ◌^◌, [], false, length, IfOk};
ghost use Rattle.ots_tree.specs.TokenRef.{token_of};
ghost use Rattle.ots_reader.specs.Cut.{IsSpelling};
ghost use Rattle.ots_reader.specs.Front.{IsStanding, ComesTo};
ghost use Rattle.ots_reader.specs.OneAnswer.{IsShape};

use crate::came::Came;
use crate::fault::{Fault, Reason};
use crate::turn::take_turn;
use ots_base::OutOfMemory;
use ots_tree::{Shape, TokenRef, Walk};
use std::alloc::Global;

/// The most nodes that are open besides the last one: each stands at another depth, but a node that is
/// kept open by a fork stands twice until its next item begins.
pub(crate) const MAX_OTHERS: usize = 256;

/// The tokens that have come.
#[derive(Drop)]
pub(crate) struct Front {
    /// What the tree stands below.
    pub below: Shape,
    /// How many bytes spell the tokens.
    pub place: u64,
    /// The nodes that are open after them.
    pub walk: Walk<Shape>,
    /// Whether no node is open.
    pub whole: bool,
    /// Which tokens they are, for contracts alone.
    pub came: Came,
}

impl Front {
    /// No token yet. It takes the memory for all that comes.
    pub fn begin(alloc: Global, shape: Shape) -> Result<Front, OutOfMemory>
        requires { IsShape shape.length shape.depth }
        ensures stands { IfOk result (λ front. IsStanding front) }
        ensures below { IfOk result (λ front. front.below ≡ shape) }
        ensures none { IfOk result (λ front. front.came.tokens ≡ []) }
    {
        Ok(Front {
            below: shape,
            place: 0,
            walk: Walk::begin_with_room(alloc, shape, MAX_OTHERS)?,
            whole: false,
            came: Came::none(),
        })
    }

    /// The fault of the next token, for this reason.
    pub fn fault(&self, reason: Reason) -> Fault
        ensures { result ≡ record { place = self.now.place; reason = reason } }
    {
        Fault {
            place: self.place,
            reason,
        }
    }
}

/// Sets what the tree stands below, before its first token.
pub(crate) fn place_below(front: &mut Front, shape: Shape)
    requires stands { IsStanding front.old }
    requires none { front.old.came.tokens ≡ [] }
    requires shape { IsShape shape.length shape.depth }
    ensures stands { IsStanding front.new }
    ensures below { front.new.below ≡ shape }
    ensures none { front.new.came.tokens ≡ [] }
{
    front.below = shape;
    front.walk.lead(shape);
}

/// One more token, with the bytes that spell it, stands at the last open node, where it can. Whether it
/// is the tree's last one. It takes no memory.
#[inline(always)]
pub(crate) fn take(front: &mut Front, token: TokenRef<'_>, spelling: &[u8]) -> Result<bool, Fault>
    requires stands { IsStanding front.old }
    requires open { front.old.whole ≡ false }
    requires spelled { IsSpelling spelling.now (token_of token) }
    requires few { front.old.place + length spelling.now < 2 ^ 64 }
    ensures stands { IsStanding front.new }
    ensures below { front.new.below ≡ front.old.below }
    ensures came { ComesTo front.old (token_of token.entry) result front.new }
{
    let open = match take_turn(&mut front.walk, token) {
        Ok(open) => open,
        Err(reason) => return Err(front.fault(reason)),
    };
    front.came = front.came.and(spelling);
    front.place += spelling.len() as u64;
    front.whole = !open;
    Ok(!open)
}
