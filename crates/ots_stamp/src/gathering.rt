//! The trees of all calendars in one.
ghost use Rattle.std.specs.Prelude.{ℕ, List, [], ◌∷◌, ◌++◌, IfOk};
ghost use Rattle.ots_asking.specs.Outcome.{AreSound, IsSoundGathered};
ghost use Rattle.ots_stamp.specs.Stamped.{AreSoundBelow, Gathers, GathersAny, IsGatheredBelow, good_trees};
ghost use Rattle.ots_stamp.specs.declared.target.Target.{Target};
ghost use Rattle.ots_tree.specs.declared.token.Token.{Token};
ghost use Rattle.ots_tree.specs.Sound.{IsSoundPre};

use ots_asking::Outcome;
use ots_base::OutOfMemory;
use ots_tree::{Tree, beside};

/// One node with the items of all good trees, in the order of the calendars, or none where no tree is
/// good. It copies the trees.
pub fn gather_good(outcomes: &[Outcome]) -> Result<Option<Tree>, OutOfMemory>
    ensures gathered { IfOk result (GathersAny (good_trees outcomes.now)) }
    ensures sound { (n k : ℕ) → AreSound n k outcomes.now → IfOk result (IsSoundGathered n k) }
    ensures below { (targets : List Target) → AreSoundBelow targets outcomes.now
        → IfOk result (IsGatheredBelow targets) }
{
    let mut all: Option<Tree> = None;
    for outcome in outcomes {
        if let Outcome::Tree(tree) = outcome {
            all = Some(beside_any(all, tree.copy()?)?);
        }
    }
    Ok(all)
}

/// The items of a tree after those that are gathered.
fn beside_any(gathered: Option<Tree>, tree: Tree) -> Result<Tree, OutOfMemory>
    ensures gathered { (trees : List (List Token)) → GathersAny trees gathered
        → IfOk result (Gathers (trees ++ tree ∷ [])) }
    ensures sound { (n k : ℕ) → IsSoundGathered n k gathered → IsSoundPre n k tree → IfOk result (IsSoundPre n k) }
{
    match gathered {
        Some(before) => beside(before, tree),
        None => {
            let _ = tree.tokens();
            Ok(tree)
        }
    }
}
