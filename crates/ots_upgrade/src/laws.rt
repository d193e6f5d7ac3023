//! A proof asks for one list of pairs.
ghost use Rattle.std.specs.Prelude.{◌≡◌, List};
ghost use Rattle.ots_pending.specs.Pairs.{ArePairs, PairAt};

use ots_tree::{Detached, limits_of_detached};

/// The pending paths of a proof ask calendars for one list of pairs, whether or not there is memory to
/// make it.
pub fn one_list_of_pairs(proof: &Detached)
    ensures some { (pairs : List PairAt) × ArePairs proof.now pairs }
    ensures one { (a b : List PairAt) → ArePairs proof.now a → ArePairs proof.now b → a ≡ b }
{
    limits_of_detached(proof);
    let _ = proof.tree.depths();
}
