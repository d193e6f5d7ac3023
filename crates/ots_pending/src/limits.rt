//! The limits of trees.
ghost use Rattle.std.specs.List.{AllByRecursion};
ghost use Rattle.ots_tree.specs.Wire.{IsToken};
ghost use Rattle.ots_pending.specs.Limits.{HasLimits, HaveLimits};

use ots_tree::Tree;

/// The tokens of a tree are within their limits.
pub(crate) fn limits_of_tree(tree: &Tree)
    ensures { AllByRecursion IsToken tree.now }
{
    let _tokens = tree.tokens();
}

/// So are those of each of these trees.
pub(crate) fn limits_of_trees(trees: &[Option<Tree>])
    ensures { HaveLimits trees.now }
{
    for tree in trees {
        limits_of(tree);
    }
}

/// So are those of a tree, if it is one.
fn limits_of(tree: &Option<Tree>)
    ensures { HasLimits tree.now }
{
    if let Some(tree) = tree {
        limits_of_tree(tree);
    }
}
