ghost use Rattle.std.specs.Prelude.{◌≡◌, ℕ, Some, is_some};
ghost use Rattle.std.specs.declared.option.Option.{Option};
ghost use Rattle.ots_base.specs.Told.{IfTold};

/// A clock of Unix seconds. It doesn't fail. One that tells nothing never begins to tell, and one
/// that tells never stops.
pub trait Clock {
    /// The second to come, where it is told.
    ghost coming: { Self → Option ℕ };

    /// The Unix second.
    fn second(&mut self) -> u64
        ensures second { IfTold (coming self.old) (λ second. result ≡ second) }
        ensures told { is_some (coming self.new) ≡ is_some (coming self.old) };
}

/// A clock that stands, as that of one connection, whose second is the one at which it was accepted.
#[derive(Clone, Copy, Debug, Drop, PartialEq, Eq)]
pub struct FixedClock {
    /// The second at which it stands.
    pub second: u64,
}

impl Clock for FixedClock {
    ghost coming = { λ clock. Some clock.second };

    fn second(&mut self) -> u64
        ensures second { result ≡ self.old.second }
        ensures told { is_some (Some self.new.second) ≡ is_some (Some self.old.second) }
        ensures stands { self.new ≡ self.old }
    {
        self.second
    }
}
