ghost use Rattle.std.specs.Prelude.{◌≡◌, length, drop, Some, IfOk, is_err, is_ok, if◌then◌else◌};
ghost use Rattle.std.specs.Io.{ReadsAtMost};
ghost use Rattle.ots_base.specs.Cause.{HasCause};
ghost use Rattle.ots_memory.specs.Calls.{is_next_listed, after_call, faults_after};
ghost use Rattle.ots_memory.specs.Cut.{read_count};
ghost use Rattle.ots_memory.specs.MemoryForms.{BytesSourceTold};
ghost use Rattle.ots_outside.specs.Streams.{Reads};

use crate::calls::Calls;
use crate::cut_input::CutInput;
use ots_base::OutOfMemory;
use ots_outside::{Count, Failed, Source};
use std::alloc::Global;
use std::marker::Model;

/// Bytes in memory, read in pieces. A read fails exactly where its number is listed to fail.
#[derive(Drop)]
pub struct BytesSource {
    input: CutInput,
    calls: Calls,
    faults: Count,
}

impl Model for BytesSource {
    ghost Value = { BytesSourceTold };

    ghost view = { λ s. record {
      left = s.input.left;
      pieces = s.input.pieces;
      calls = s.calls;
      faults = s.faults;
    } };
}

impl BytesSource {
    /// A source of these bytes. The read that succeeds as number i gives at most `pieces[i]` bytes,
    /// and at least one if it can; once the list has ended, a read gives all that its buffer
    /// holds. The reads of the numbers `failing` fail, the first read being number 1.
    pub fn new(
        alloc: Global,
        bytes: &[u8],
        pieces: &[usize],
        failing: &[u64],
    ) -> Result<BytesSource, OutOfMemory>
        ensures left { IfOk result (λ s. s.left ≡ bytes.now) }
        ensures pieces { IfOk result (λ s. s.pieces ≡ pieces.now) }
        ensures calls { IfOk result (λ s. s.calls ≡ record { failing = failing.now; made = 0 }) }
        ensures faults { IfOk result (λ s. s.faults ≡ 0) }
    {
        Ok(BytesSource {
            input: CutInput::new(bytes.to_vec(alloc)?, pieces.to_vec(alloc)?),
            calls: Calls::new(alloc, failing)?,
            faults: Count::new(),
        })
    }
}

impl Source for BytesSource {
    ghost left = { λ s. Some s.left };

    ghost faults = { λ s. s.faults };

    ghost same = { λ s t. Unit {0} };

    ghost same_refl = { λ s. tt };

    ghost same_trans = { λ s t u first second. tt };

    fn read(&mut self, buf: &mut [u8]) -> Result<usize, Failed>
        ensures bound { ReadsAtMost result buf.new }
        ensures bytes { Reads (Some self.old.left) (Some self.new.left) result buf.new }
        ensures cause { HasCause self.old.faults self.new.faults result }
        ensures same { Unit {0} }
        ensures failed { is_err result ≡ is_next_listed self.old.calls }
        ensures count { IfOk result (λ count. count ≡ read_count self.old.left self.old.pieces (length buf.old)) }
        ensures pieces { self.new.pieces ≡ (if is_ok result then drop 1 self.old.pieces else self.old.pieces) }
        ensures calls { self.new.calls ≡ after_call self.old.calls }
        ensures faults { self.new.faults ≡ faults_after self.old.faults result }
    {
        if self.calls.count() {
            self.faults.rise();
            return Err(Failed);
        }
        Ok(self.input.read(buf))
    }
}
