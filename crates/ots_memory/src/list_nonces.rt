ghost use Rattle.std.specs.Prelude.{◌≡◌, Some, IfOk, OnOk, OnErr, is_err};
ghost use Rattle.ots_base.specs.Cause.{HasCause};
ghost use Rattle.ots_memory.specs.Calls.{after_call, faults_after};
ghost use Rattle.ots_memory.specs.Nonces.{ListNoncesTold, is_fill_refused};
ghost use Rattle.ots_outside.specs.Streams.{Gives};

use crate::calls::Calls;
use crate::input::Input;
use ots_base::OutOfMemory;
use ots_outside::{Count, Failed, Nonces};
use std::alloc::Global;
use std::marker::Model;

/// Nonces from bytes in memory. A call fails exactly where its number is listed to fail, or where
/// fewer than 16 bytes are to come.
#[derive(Drop)]
pub struct ListNonces {
    input: Input,
    calls: Calls,
    faults: Count,
}

impl Model for ListNonces {
    ghost Value = { ListNoncesTold };

    ghost view = { λ s. record { left = s.input.left; calls = s.calls; faults = s.faults } };
}

impl ListNonces {
    /// The nonces that these bytes are, one after the other. The calls of the numbers `failing`
    /// fail, the first call being number 1.
    pub fn new(alloc: Global, bytes: &[u8], failing: &[u64]) -> Result<ListNonces, OutOfMemory>
        ensures left { IfOk result (λ s. s.left ≡ bytes.now) }
        ensures calls { IfOk result (λ s. s.calls ≡ record { failing = failing.now; made = 0 }) }
        ensures faults { IfOk result (λ s. s.faults ≡ 0) }
    {
        Ok(ListNonces {
            input: Input::new(bytes.to_vec(alloc)?),
            calls: Calls::new(alloc, failing)?,
            faults: Count::new(),
        })
    }
}

impl Nonces for ListNonces {
    ghost left = { λ s. Some s.left };

    ghost faults = { λ s. s.faults };

    fn fill16(&mut self, out: &mut [u8; 16]) -> Result<(), Failed>
        ensures drawn { OnOk result (Gives (Some self.old.left) (Some self.new.left) out.new) }
        ensures failed { OnErr result (Some self.new.left ≡ Some self.old.left) }
        ensures cause { HasCause self.old.faults self.new.faults result }
        ensures refused { is_err result ≡ is_fill_refused self.old }
        ensures calls { self.new.calls ≡ after_call self.old.calls }
        ensures faults { self.new.faults ≡ faults_after self.old.faults result }
    {
        if self.calls.count() || self.input.left() < 16 {
            self.faults.rise();
            return Err(Failed);
        }
        self.input.read(out);
        Ok(())
    }
}
