ghost use Rattle.std.specs.Prelude.{◌≡◌, ◌<◌, ◌||◌, [], length, Some, IfOk, is_err};
ghost use Rattle.std.specs.Io.{WritesAtMost};
ghost use Rattle.ots_base.specs.Cause.{HasCause};
ghost use Rattle.ots_memory.specs.Calls.{is_next_listed, after_call, faults_after};
ghost use Rattle.ots_memory.specs.MemoryForms.{BytesSinkTold};
ghost use Rattle.ots_memory.specs.Reserved.{is_past};
ghost use Rattle.ots_outside.specs.Streams.{Writes};

use crate::calls::Calls;
use crate::output::Output;
use ots_base::OutOfMemory;
use ots_outside::{Count, Failed, Sink};
use std::alloc::Global;
use std::marker::Model;

/// Bytes in memory that grow by what is written, up to a capacity that is reserved when the sink
/// is made. A write takes the whole piece. It fails exactly where its number is listed to fail, or
/// where the piece passes the capacity.
#[derive(Drop)]
pub struct BytesSink {
    output: Output,
    calls: Calls,
    faults: Count,
}

impl Model for BytesSink {
    ghost Value = { BytesSinkTold };

    ghost view = { λ s. record {
      taken = s.output.taken;
      capacity = s.output.capacity;
      calls = s.calls;
      faults = s.faults;
    } };
}

impl BytesSink {
    /// A sink that has taken nothing, and takes up to `capacity` bytes in all. The writes of the
    /// numbers `failing` fail, the first write being number 1.
    pub fn new(alloc: Global, capacity: usize, failing: &[u64]) -> Result<BytesSink, OutOfMemory>
        ensures taken { IfOk result (λ s. s.taken ≡ []) }
        ensures capacity { IfOk result (λ s. s.capacity ≡ capacity) }
        ensures calls { IfOk result (λ s. s.calls ≡ record { failing = failing.now; made = 0 }) }
        ensures faults { IfOk result (λ s. s.faults ≡ 0) }
    {
        Ok(BytesSink {
            output: Output::new(alloc, capacity)?,
            calls: Calls::new(alloc, failing)?,
            faults: Count::new(),
        })
    }

    /// The bytes taken.
    pub fn bytes(&self) -> &[u8]
        ensures { result.now ≡ self.now.taken }
    {
        self.output.bytes()
    }
}

impl Sink for BytesSink {
    ghost taken = { λ s. Some s.taken };

    ghost faults = { λ s. s.faults };

    ghost same = { λ s t. Unit {0} };

    ghost same_refl = { λ s. tt };

    ghost same_trans = { λ s t u first second. tt };

    fn write(&mut self, piece: &[u8]) -> Result<usize, Failed>
        ensures bound { WritesAtMost result piece.now }
        ensures some { 0 < length piece.now → IfOk result (λ count. 0 < count) }
        ensures bytes { Writes (Some self.old.taken) (Some self.new.taken) result piece.now }
        ensures cause { HasCause self.old.faults self.new.faults result }
        ensures same { Unit {0} }
        ensures failed { is_err result ≡ (is_next_listed self.old.calls
            || is_past self.old.taken self.old.capacity piece.now) }
        ensures count { IfOk result (λ count. count ≡ length piece.now) }
        ensures capacity { self.new.capacity ≡ self.old.capacity }
        ensures calls { self.new.calls ≡ after_call self.old.calls }
        ensures faults { self.new.faults ≡ faults_after self.old.faults result }
    {
        if self.calls.count() || self.output.is_past(piece) {
            self.faults.rise();
            return Err(Failed);
        }
        self.output.take(piece);
        Ok(piece.len())
    }
}
