ghost use Rattle.std.specs.Prelude.{ℕ, List};
ghost use Rattle.std.specs.declared.option.Option.{Option};
ghost use Rattle.std.specs.Io.{ReadsAtMost};
ghost use Rattle.ots_base.specs.Cause.{HasCause};
ghost use Rattle.ots_outside.specs.Streams.{Reads};

use crate::Failed;

/// Bytes that are read once, from their start.
///
/// The input of a source is what its reads give up to the first 0, however they are cut. A source
/// that tells nothing never begins to tell, and one that tells never stops.
pub trait Source {
    /// The bytes left, where they are told.
    ghost left: { Self → Option (List ℕ) };

    /// How often a read has failed. At 2^64 - 1 the count stays.
    ghost faults: { Self → ℕ };

    /// What stays of an earlier value in a later one. Every read keeps it.
    ghost same: { Self → Self → Type 0 };

    /// `Ok(n)` puts the next n bytes at the start of `buf`. For a `buf` that isn't empty, 0 is the
    /// end of input, after which a caller asks no further. `Failed` comes only where the count of
    /// faults rose, and leaves the bytes left as they were.
    fn read(&mut self, buf: &mut [u8]) -> Result<usize, Failed>
        ensures bound { ReadsAtMost result buf.new }
        ensures bytes { Reads (left self.old) (left self.new) result buf.new }
        ensures cause { HasCause (faults self.old) (faults self.new) result }
        ensures same { same self.old self.new };

    ghost same_refl: { (s : Self) → same s s };

    ghost same_trans: { (s t u : Self) → same s t → same t u → same s u };
}
