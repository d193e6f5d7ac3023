ghost use Rattle.std.specs.Prelude.{◌≡◌, ℕ, List, OnOk, OnErr};
ghost use Rattle.std.specs.declared.option.Option.{Option};
ghost use Rattle.ots_base.specs.Cause.{HasCause};
ghost use Rattle.ots_outside.specs.Streams.{Gives};

use crate::Failed;

/// A giver of nonces, each of 16 bytes. One that tells nothing never begins to tell, and one that
/// tells never stops.
pub trait Nonces {
    /// The bytes to come, where they are told.
    ghost left: { Self → Option (List ℕ) };

    /// How often a call has failed. At 2^64 - 1 the count stays.
    ghost faults: { Self → ℕ };

    /// `Ok` fills `out` with the next 16 bytes. `Failed` comes only where the count of faults rose,
    /// and leaves the bytes to come as they were.
    fn fill16(&mut self, out: &mut [u8; 16]) -> Result<(), Failed>
        ensures drawn { OnOk result (Gives (left self.old) (left self.new) out.new) }
        ensures failed { OnErr result (left self.new ≡ left self.old) }
        ensures cause { HasCause (faults self.old) (faults self.new) result };
}
