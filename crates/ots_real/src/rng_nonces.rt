ghost use Rattle.std.specs.Prelude.{◌≡◌, [], OnErr, OnOk};
ghost use Rattle.ots_base.specs.Cause.{HasCause};
ghost use Rattle.ots_real.specs.Counting.{count_after};
ghost use Rattle.ots_real.specs.RngNonces.{random_of, reserve_of, draw_faults, GivesNonce};

use crate::reserve::Reserve;
use ots_outside::{Count, Failed, Nonces};
use rand_core::TryRng;

/// Nonces from any random source, as the system's. It draws 16 of them at once, and gives each out
/// once. It tells nothing, and counts each failed draw as a fault. What the source says of its draws is
/// `G.may_fill` of the source.
#[derive(Drop)]
pub struct RngNonces<G: TryRng> {
    random: G,
    reserve: Reserve,
    faults: Count,
}

impl<G: TryRng> RngNonces<G> {
    /// Nonces that this source gives, of which none is drawn yet.
    pub fn new(random: G) -> RngNonces<G>
        ensures random { random_of result ≡ random }
        ensures reserve { reserve_of result ≡ [] }
        ensures faults { draw_faults result ≡ 0 }
    {
        RngNonces {
            random,
            reserve: Reserve::new(),
            faults: Count::new(),
        }
    }
}

impl<G: TryRng> Nonces for RngNonces<G> {
    ghost use Rattle.std.specs.Prelude.{None};
    ghost use Rattle.ots_real.specs.RngNonces.{draw_faults};

    ghost left = { λ n. None };

    ghost faults = { draw_faults };

    fn fill16(&mut self, out: &mut [u8; 16]) -> Result<(), Failed>
        ensures given { OnOk result (GivesNonce G.may_fill (random_of self.old) (reserve_of self.old) out.new
            (random_of self.new) (reserve_of self.new)) }
        ensures none { OnErr result (reserve_of self.new ≡ []) }
        ensures cause { HasCause (draw_faults self.old) (draw_faults self.new) result }
        ensures counted { draw_faults self.new ≡ count_after (draw_faults self.old) result }
    {
        if let Some(nonce) = self.reserve.pop() {
            *out = nonce;
            return Ok(());
        }
        if let Err(Failed) = self.reserve.draw(&mut self.random) {
            self.faults.rise();
            return Err(Failed);
        }
        match self.reserve.pop() {
            Some(nonce) => *out = nonce,
            None => unreachable!(),
        }
        Ok(())
    }
}
