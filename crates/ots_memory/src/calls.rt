ghost use Rattle.std.specs.Prelude.{◌≡◌, IfOk};
ghost use Rattle.ots_memory.specs.Calls.{CallsTold, is_next_listed, after_call};

use ots_base::OutOfMemory;
use ots_outside::Count;
use std::alloc::Global;
use std::marker::Model;

/// The calls of an object in memory: how many were made, and which are to fail.
#[derive(Drop)]
pub struct Calls {
    failing: Vec<u64>,
    made: Count,
}

impl Model for Calls {
    ghost Value = { CallsTold };

    ghost view = { λ c. record { failing = c.failing.items; made = c.made } };
}

impl Calls {
    /// No call was made yet. The calls of the numbers `failing` are to fail, the first being 1.
    pub fn new(alloc: Global, failing: &[u64]) -> Result<Calls, OutOfMemory>
        ensures { IfOk result (λ c. c ≡ record { failing = failing.now; made = 0 }) }
    {
        Ok(Calls {
            failing: failing.to_vec(alloc)?,
            made: Count::new(),
        })
    }

    /// Counts a call, and answers whether it is one of those that are to fail.
    pub fn count(&mut self) -> bool
        ensures listed { result ≡ is_next_listed self.old }
        ensures counted { self.new ≡ after_call self.old }
    {
        let listed = self.failing.contains(&self.made.next());
        self.made.rise();
        listed
    }
}
