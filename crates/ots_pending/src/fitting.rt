//! Whether trees may be given for pairs.
ghost use Rattle.std.specs.Prelude.{◌≡◌, ◌<◌, ◌↔◌, length, IsTrue, Some};
ghost use Rattle.ots_pending.specs.Completed.{AreSoundFor, IsSoundFor};

use crate::pairs::Pairs;
use ots_tree::{Shape, Tree, is_sound};

/// Whether each of the trees that are given for pairs is sound for the message of its pair and the number
/// of operations before it. It takes no memory.
pub fn are_sound_for(pairs: &Pairs, trees: &[Option<Tree>]) -> bool
    requires { length trees.now ≡ length pairs.now }
    ensures { IsTrue result ↔ AreSoundFor pairs.now trees.now }
{
    for (i, tree) in trees.iter().enumerate() {
        if !is_sound_for(pairs, i, tree) {
            return false;
        }
    }
    true
}

/// Whether the tree is sound for the pair at this place.
fn is_sound_for(pairs: &Pairs, i: usize, tree: &Option<Tree>) -> bool
    requires { i < length pairs.now }
    ensures { IsTrue result ↔ IsSoundFor pairs.now i tree.now }
{
    let Some(tree) = tree else {
        return true;
    };
    let shape = Shape {
        length: pairs.message(i).bytes().len() as u32,
        depth: pairs.depth(i),
    };
    is_sound(tree, shape)
}
