//! A list of bytes that only contracts see.
ghost use Rattle.std.specs.Prelude.{◌≡◌, ℕ, List, [], ◌++◌};

use std::marker::Model;

/// A list of bytes that only contracts see, as what a hasher was fed, which keeps none of it but the
/// rest of a block. It takes no room, and its methods do nothing at run time. By itself it says
/// nothing: the invariant of what holds it ties it to all that is kept.
pub struct GhostBytes {
    pub ghost bytes: { List ℕ },
}

impl Model for GhostBytes {
    ghost use base.Fml.{ftrue};

    // It owns nothing.
    ghost also_owns = { λ _. ftrue };
}

impl GhostBytes {
    /// No byte yet.
    pub fn nothing() -> GhostBytes
        ensures { result.bytes ≡ [] }
    {
        GhostBytes {}
    }

    /// These bytes, then `more`.
    pub fn and(&self, more: &[u8]) -> GhostBytes
        ensures { result.bytes ≡ self.now.bytes ++ more.now }
    {
        let _ = more;
        GhostBytes {}
    }
}

// It owns nothing, so any thread may have it.
unsafe impl Send for GhostBytes {}

unsafe impl Sync for GhostBytes {}

impl Drop for GhostBytes {
    fn drop(self) {
        let Self {} = self;
    }
}
