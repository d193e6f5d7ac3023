ghost use Rattle.std.specs.Prelude.{◌≡◌, Some, OnOk, OnErr, is_err, is_none, is_ok, if◌then◌else◌};
ghost use Rattle.ots_base.specs.Cause.{HasCause, one_more};
ghost use Rattle.ots_outside.specs.OneNonce.{bytes_of};
ghost use Rattle.ots_outside.specs.Streams.{Gives};

use crate::{Count, Failed, Nonces};
use std::marker::Model;

/// One nonce, or none, as that of one connection. A second draw, or one where there is none, is a
/// counted fault.
#[derive(Drop)]
pub struct OneNonce {
    nonce: Option<[u8; 16]>,
    faults: Count,
}

impl Model for OneNonce {
    ghost use Rattle.ots_outside.specs.OneNonce.{OneNonceTold};

    ghost Value = { OneNonceTold };

    ghost view = { λ n. record { nonce = n.nonce; faults = n.faults } };
}

impl OneNonce {
    /// This nonce, or none.
    pub fn new(nonce: Option<[u8; 16]>) -> OneNonce
        ensures { result ≡ record { nonce = nonce; faults = 0 } }
    {
        OneNonce {
            nonce,
            faults: Count::new(),
        }
    }
}

impl Nonces for OneNonce {
    ghost left = { λ n. Some (bytes_of n.nonce) };

    ghost faults = { λ n. n.faults };

    fn fill16(&mut self, out: &mut [u8; 16]) -> Result<(), Failed>
        ensures drawn { OnOk result (Gives (Some (bytes_of self.old.nonce)) (Some (bytes_of self.new.nonce)) out.new) }
        ensures failed { OnErr result (Some (bytes_of self.new.nonce) ≡ Some (bytes_of self.old.nonce)) }
        ensures cause { HasCause self.old.faults self.new.faults result }
        ensures refused { is_err result ≡ is_none self.old.nonce }
        ensures faults { self.new.faults ≡ (if is_ok result then self.old.faults else one_more self.old.faults) }
    {
        match self.nonce {
            Some(nonce) => {
                *out = nonce;
                self.nonce = None;
                Ok(())
            }
            None => {
                self.faults.rise();
                Err(Failed)
            }
        }
    }
}
