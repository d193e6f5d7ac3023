//! Which trees are sound for a message.
ghost use Rattle.std.specs.Prelude.{◌≡◌, ◌≤◌, ◌<◌, ◌↔◌, length, slice_index, Some, None, IsTrue, IsSome, MatchBool};
ghost use Rattle.ots_tree.specs.Kept.{IsKept, beside};
ghost use Rattle.ots_tree.specs.Passed.{passed, all_passed};
ghost use Rattle.ots_tree.specs.Sound.{IsSoundPre};

use crate::shape::Shape;
use crate::token::Token;
use crate::tree::Tree;
use ots_base::MAX_OPERATIONS;

/// Whether every operation of the tree has a result, where the root's message has the shape's
/// length, and no path has more than 255 operations with those that the shape counts before it. It
/// takes no memory.
pub fn is_sound(tree: &Tree, shape: Shape) -> bool
    ensures { IsTrue result ↔ IsSoundPre shape.length shape.depth tree.now }
{
    if !shape.is_within() {
        return false;
    }
    let mut lengths = [shape.length; 256];
    all_pass(tree.tokens(), tree.depths(), shape.depth, &mut lengths)
}

/// Whether each operation has a result, and none is the 256th. At each depth, `lengths` has the
/// length of the message there, on the path of the token at which the walk is.
fn all_pass(tokens: &[Token], depths: &[u32], above: u32, lengths: &mut [u32]) -> bool
    requires kept { IsKept tokens.now depths.now }
    requires above { above ≤ MAX_OPERATIONS }
    requires room { length lengths.old ≡ 256 }
    ensures { IsTrue result ↔ IsSome (all_passed above (beside tokens.now depths.now) lengths.old) }
{
    for (at, token) in tokens.iter().enumerate() {
        if !passes(token, depths[at], above, lengths) {
            return false;
        }
    }
    true
}

/// Whether the token is no operation, or one that has a result and is not the 256th. The length of
/// its result is put at its depth.
fn passes(token: &Token, depth: u32, above: u32, lengths: &mut [u32]) -> bool
    requires above { above ≤ MAX_OPERATIONS }
    requires room { length lengths.old ≡ 256 }
    ensures { MatchBool result (passed above token.now depth lengths.old ≡ Some lengths.new)
        (passed above token.now depth lengths.old ≡ None) }
{
    let Token::Op(op) = token else {
        return true;
    };
    let at = depth as usize;
    if at >= lengths.len() {
        return false;
    }
    let shape = Shape {
        length: lengths[at],
        depth: above + depth,
    };
    match shape.after(op.borrowed()) {
        Some(next) => {
            lengths[at + 1] = next.length;
            true
        }
        None => false,
    }
}
