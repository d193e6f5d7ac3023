//! Random bytes that are drawn before they are asked for.
ghost use Rattle.std.specs.Prelude.{◌≡◌, ◌++◌, [], length, IfNone, IfSome, OnOk, OnErr};

use ots_outside::Failed;
use rand_core::TryRng;
use std::marker::Model;

/// How many nonces are drawn at once, so that most of them take no call of the system.
const AT_ONCE: usize = 16;

/// The bytes of a nonce.
const NONCE: usize = 16;

/// Random bytes that were drawn at once for several nonces, and are given out from the last one on.
///
/// Contracts see the list of those that are left.
#[derive(Drop)]
pub(crate) struct Reserve {
    bytes: [u8; AT_ONCE * NONCE],
    nonces: usize,
}

impl Model for Reserve {
    ghost use Rattle.std.specs.Prelude.{◌*◌, ◌≤◌, ℕ, List, take};

    ghost Value = { List ℕ };

    ghost view = { λ r. take (r.nonces * 16) r.bytes };

    ghost invariant = { λ r. r.nonces ≤ 16 };
}

impl Reserve {
    /// No byte is left.
    pub(crate) fn new() -> Reserve
        ensures { result ≡ [] }
    {
        Reserve {
            bytes: [0; AT_ONCE * NONCE],
            nonces: 0,
        }
    }

    /// Draws the bytes of 16 nonces in place of those that are left. Where the draw fails, none is left.
    pub(crate) fn draw<G: TryRng>(&mut self, random: &mut G) -> Result<(), Failed>
        ensures drawn { OnOk result (G.may_fill random.old self.new random.new) }
        ensures length { OnOk result (length self.new ≡ 256) }
        ensures none { OnErr result (self.new ≡ []) }
    {
        self.nonces = 0;
        let Ok(()) = random.try_fill_bytes(&mut self.bytes) else {
            return Err(Failed);
        };
        self.nonces = AT_ONCE;
        Ok(())
    }

    /// Gives out the last nonce that is left, if one is.
    pub(crate) fn pop(&mut self) -> Option<[u8; NONCE]>
        ensures given { IfSome result (λ nonce. self.old ≡ self.new ++ nonce) }
        ensures none { IfNone result ((self.old ≡ []) × (self.new ≡ [])) }
    {
        self.nonces = self.nonces.checked_sub(1)?;
        let start = self.nonces * NONCE;
        let mut nonce = [0; NONCE];
        nonce.copy_from_slice(&self.bytes[start..start + NONCE]);
        Some(nonce)
    }
}
