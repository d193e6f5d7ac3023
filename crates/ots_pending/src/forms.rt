//! The canonical forms of trees.
ghost use Rattle.std.specs.Prelude.{IfOk};
ghost use Rattle.ots_pending.specs.Forms.{AreForms, IsForm};

use ots_base::OutOfMemory;
use ots_canon::canon;
use ots_tree::Tree;
use std::alloc::Global;

/// The canonical form of each of these trees.
pub(crate) fn forms_of(
    alloc: Global,
    trees: &[Option<Tree>],
) -> Result<Vec<Option<Tree>>, OutOfMemory>
    ensures { IfOk result (λ forms. AreForms trees.now forms.items) }
{
    let mut forms = Vec::with_capacity(alloc, trees.len())?;
    for tree in trees {
        forms.push(form_of(alloc, tree)?)?;
    }
    Ok(forms)
}

/// The canonical form of a tree, if it is one.
fn form_of(alloc: Global, tree: &Option<Tree>) -> Result<Option<Tree>, OutOfMemory>
    ensures { IfOk result (IsForm tree.now) }
{
    let Some(tree) = tree else {
        return Ok(None);
    };
    Ok(Some(canon(alloc, tree)?))
}
