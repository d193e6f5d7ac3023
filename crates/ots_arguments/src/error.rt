//! Why words are not read.
use std::alloc::AllocError;

/// Why words ask for nothing.
#[derive(Clone, Copy, Debug, PartialEq, Eq)]
pub enum WordsError {
    /// They are of no command's form.
    Usage,
    /// Memory ran out.
    OutOfMemory,
}

impl From<AllocError> for WordsError {
    ghost use Rattle.std.specs.Prelude.{◌≡◌};
    ghost use Rattle.ots_arguments.specs.declared.error.WordsError.TheVariants.{OutOfMemory};

    ghost from_gives = { λ _ e. e ≡ OutOfMemory };

    fn from(_: AllocError) -> Self {
        WordsError::OutOfMemory
    }
}
