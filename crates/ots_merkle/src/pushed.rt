//! Which leaves were pushed, for contracts alone.
ghost use Rattle.std.specs.Prelude.{◌≡◌, ℕ, List, [], ◌∷◌, ◌++◌};

use std::marker::Model;

/// A list of leaves that only clauses see. It takes no room, and its methods do nothing at run
/// time. By itself it says nothing: the invariant of a tree ties it to the hashes that the tree
/// keeps.
pub struct Pushed {
    pub ghost leaves: { List (List ℕ) },
}

impl Model for Pushed {
    ghost use base.Fml.{ftrue};

    // It owns nothing.
    ghost also_owns = { λ _. ftrue };
}

impl Pushed {
    /// Nothing yet.
    pub fn nothing() -> Pushed
        ensures { result.leaves ≡ [] }
    {
        Pushed {}
    }

    /// These leaves, then one more.
    pub fn and(&self, leaf: &[u8]) -> Pushed
        ensures { result.leaves ≡ self.now.leaves ++ leaf.now ∷ [] }
    {
        let _ = leaf;
        Pushed {}
    }
}

// It owns nothing, so any thread may have it.
unsafe impl Send for Pushed {}

unsafe impl Sync for Pushed {}

impl Drop for Pushed {
    fn drop(self) {
        let Self {} = self;
    }
}
