ghost use Rattle.std.specs.Prelude.{◌≡◌, ◌<◌, ℕ, length, IfOk};
ghost use Rattle.std.specs.declared.option.Option.{Option};
ghost use Rattle.std.specs.Io.{ReadsAtMost, WritesAtMost};
ghost use Rattle.ots_base.specs.Cause.{HasCause};
ghost use Rattle.ots_outside.specs.Link.{LinkTold, LinkReads, LinkWrites};

use crate::Failed;

/// A connection: bytes that come, read once from their start, and bytes that are sent, each piece
/// after the one before.
///
/// The input of a link is what its reads have given and what is left. A link that tells nothing
/// never begins to tell, and one that tells never stops.
pub trait Link {
    /// The bytes left, those that its reads have given and those that it has taken, where they are
    /// told.
    ghost told: { Self → Option LinkTold };

    /// How often a call has failed. At 2^64 - 1 the count stays.
    ghost faults: { Self → ℕ };

    /// What stays of an earlier value in a later one. Every call keeps it.
    ghost same: { Self → Self → Type 0 };

    /// As `Source::read`. It changes only the bytes left and given.
    fn read(&mut self, buf: &mut [u8]) -> Result<usize, Failed>
        ensures bound { ReadsAtMost result buf.new }
        ensures bytes { LinkReads (told self.old) (told self.new) result buf.new }
        ensures cause { HasCause (faults self.old) (faults self.new) result }
        ensures same { same self.old self.new };

    /// As `Sink::write`. It changes only the bytes taken.
    fn write(&mut self, piece: &[u8]) -> Result<usize, Failed>
        ensures bound { WritesAtMost result piece.now }
        ensures some { 0 < length piece.now → IfOk result (λ count. 0 < count) }
        ensures bytes { LinkWrites (told self.old) (told self.new) result piece.now }
        ensures cause { HasCause (faults self.old) (faults self.new) result }
        ensures same { same self.old self.new };

    /// Says that nothing more is written, so that the other side meets the end at once, and not
    /// when the link is let go. All that is told stays, and so does the count.
    fn finish(&mut self)
        ensures told { told self.new ≡ told self.old }
        ensures faults { faults self.new ≡ faults self.old }
        ensures same { same self.old self.new };

    ghost same_refl: { (s : Self) → same s s };

    ghost same_trans: { (s t u : Self) → same s t → same t u → same s u };
}
