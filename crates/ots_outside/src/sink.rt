ghost use Rattle.std.specs.Prelude.{◌<◌, ℕ, List, length, IfOk};
ghost use Rattle.std.specs.declared.option.Option.{Option};
ghost use Rattle.std.specs.Io.{WritesAtMost};
ghost use Rattle.ots_base.specs.Cause.{HasCause};
ghost use Rattle.ots_outside.specs.Streams.{Writes};

use crate::Failed;

/// A taker of bytes, each piece after the one before. A sink that tells nothing never begins to
/// tell, and one that tells never stops.
pub trait Sink {
    /// The bytes taken, where they are told.
    ghost taken: { Self → Option (List ℕ) };

    /// How often a write has failed. At 2^64 - 1 the count stays.
    ghost faults: { Self → ℕ };

    /// What stays of an earlier value in a later one. Every write keeps it.
    ghost same: { Self → Self → Type 0 };

    /// `Ok(n)` took the first n bytes of `piece`, at least one where it isn't empty. `Failed`
    /// comes only where the count of faults rose, and leaves the bytes taken as they were.
    fn write(&mut self, piece: &[u8]) -> Result<usize, Failed>
        ensures bound { WritesAtMost result piece.now }
        ensures some { 0 < length piece.now → IfOk result (λ count. 0 < count) }
        ensures bytes { Writes (taken self.old) (taken self.new) result piece.now }
        ensures cause { HasCause (faults self.old) (faults self.new) result }
        ensures same { same self.old self.new };

    ghost same_refl: { (s : Self) → same s s };

    ghost same_trans: { (s t u : Self) → same s t → same t u → same s u };
}
