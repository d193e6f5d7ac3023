//! Which tokens have come, for contracts alone: a reader that takes no memory keeps none of them.
ghost use Rattle.std.specs.Prelude.{◌≡◌, List, [], ◌∷◌, ◌++◌};
ghost use Rattle.ots_tree.specs.declared.token.Token.{Token};
ghost use Rattle.ots_reader.specs.Cut.{IsSpelling};

use std::marker::Model;

/// A list of tokens that only clauses see. It takes no room, and its methods do nothing at run time.
/// By itself it says nothing: the reader's invariant ties it to all that the reader keeps.
pub(crate) struct Came {
    pub ghost tokens: { List Token },
}

impl Model for Came {
    ghost use base.Fml.{ftrue};

    // It owns nothing.
    ghost also_owns = { λ _. ftrue };
}

impl Came {
    /// None yet.
    pub fn none() -> Came
        ensures { result.tokens ≡ [] }
    {
        Came {}
    }

    /// These, and then the one that these bytes spell.
    pub fn and(&self, spelling: &[u8]) -> Came
        requires { (x : Token) × IsSpelling spelling.now x }
        ensures { (x : Token) → IsSpelling spelling.now x → result.tokens ≡ self.now.tokens ++ x ∷ [] }
    {
        let _ = spelling;
        Came {}
    }
}

// It owns nothing, so any thread may have it.
unsafe impl Send for Came {}

unsafe impl Sync for Came {}

impl Drop for Came {
    fn drop(self) {
        let Self {} = self;
    }
}
