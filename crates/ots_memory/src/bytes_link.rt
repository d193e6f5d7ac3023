ghost use Rattle.std.specs.Prelude.{◌≡◌, ◌<◌, ◌||◌, [], length, drop, Some, IfOk, is_err, is_ok, if◌then◌else◌};
ghost use Rattle.std.specs.Io.{ReadsAtMost, WritesAtMost};
ghost use Rattle.ots_base.specs.Cause.{HasCause};
ghost use Rattle.ots_memory.specs.Calls.{is_next_listed, after_call, faults_after};
ghost use Rattle.ots_memory.specs.Cut.{read_count};
ghost use Rattle.ots_memory.specs.MemoryForms.{BytesLinkTold};
ghost use Rattle.ots_memory.specs.Reserved.{is_past};
ghost use Rattle.ots_outside.specs.Link.{LinkReads, LinkWrites, IsFresh};

use crate::calls::Calls;
use crate::cut_input::CutInput;
use crate::output::Output;
use ots_base::OutOfMemory;
use ots_outside::{Count, Failed, Link};
use std::alloc::Global;
use std::marker::Model;

/// A connection in memory: bytes that are read in pieces, and bytes that grow by what is written,
/// up to a capacity that is reserved when the link is made.
///
/// Reads and writes are counted together. A read fails exactly where its number is listed to fail,
/// and a write there too, or where its piece passes the capacity. `finish` is no counted call.
#[derive(Drop)]
pub struct BytesLink {
    input: CutInput,
    output: Output,
    calls: Calls,
    faults: Count,
}

impl Model for BytesLink {
    ghost Value = { BytesLinkTold };

    ghost view = { λ s. record {
      link = record { left = s.input.left; given = s.input.given; taken = s.output.taken };
      pieces = s.input.pieces;
      capacity = s.output.capacity;
      calls = s.calls;
      faults = s.faults;
    } };
}

impl BytesLink {
    /// A link with these bytes to read, which has given and taken nothing, and takes up to
    /// `capacity` bytes in all. The read that succeeds as number i gives at most `pieces[i]` bytes,
    /// and at least one if it can; once the list has ended, a read gives all that its buffer holds.
    /// The calls of the numbers `failing` fail, the first call being number 1.
    pub fn new(
        alloc: Global,
        bytes: &[u8],
        pieces: &[usize],
        capacity: usize,
        failing: &[u64],
    ) -> Result<BytesLink, OutOfMemory>
        ensures link { IfOk result (λ s. s.link ≡ record { left = bytes.now; given = []; taken = [] }) }
        ensures pieces { IfOk result (λ s. s.pieces ≡ pieces.now) }
        ensures capacity { IfOk result (λ s. s.capacity ≡ capacity) }
        ensures calls { IfOk result (λ s. s.calls ≡ record { failing = failing.now; made = 0 }) }
        ensures faults { IfOk result (λ s. s.faults ≡ 0) }
        ensures fresh { IfOk result (λ s. IsFresh (Some s.link) s.faults) }
    {
        Ok(BytesLink {
            input: CutInput::new(bytes.to_vec(alloc)?, pieces.to_vec(alloc)?),
            output: Output::new(alloc, capacity)?,
            calls: Calls::new(alloc, failing)?,
            faults: Count::new(),
        })
    }

    /// How many bytes are left.
    pub fn left(&self) -> usize
        ensures { result ≡ length self.now.link.left }
    {
        self.input.left()
    }

    /// The bytes that reads have given.
    pub fn given(&self) -> &[u8]
        ensures { result.now ≡ self.now.link.given }
    {
        self.input.given()
    }

    /// The bytes taken.
    pub fn taken(&self) -> &[u8]
        ensures { result.now ≡ self.now.link.taken }
    {
        self.output.bytes()
    }
}

impl Link for BytesLink {
    ghost told = { λ s. Some s.link };

    ghost faults = { λ s. s.faults };

    ghost same = { λ s t. Unit {0} };

    ghost same_refl = { λ s. tt };

    ghost same_trans = { λ s t u first second. tt };

    fn read(&mut self, buf: &mut [u8]) -> Result<usize, Failed>
        ensures bound { ReadsAtMost result buf.new }
        ensures bytes { LinkReads (Some self.old.link) (Some self.new.link) result buf.new }
        ensures cause { HasCause self.old.faults self.new.faults result }
        ensures same { Unit {0} }
        ensures failed { is_err result ≡ is_next_listed self.old.calls }
        ensures count { IfOk result (λ count. count ≡ read_count self.old.link.left self.old.pieces (length buf.old)) }
        ensures pieces { self.new.pieces ≡ (if is_ok result then drop 1 self.old.pieces else self.old.pieces) }
        ensures capacity { self.new.capacity ≡ self.old.capacity }
        ensures calls { self.new.calls ≡ after_call self.old.calls }
        ensures faults { self.new.faults ≡ faults_after self.old.faults result }
    {
        if self.calls.count() {
            self.faults.rise();
            return Err(Failed);
        }
        Ok(self.input.read(buf))
    }

    fn write(&mut self, piece: &[u8]) -> Result<usize, Failed>
        ensures bound { WritesAtMost result piece.now }
        ensures some { 0 < length piece.now → IfOk result (λ count. 0 < count) }
        ensures bytes { LinkWrites (Some self.old.link) (Some self.new.link) result piece.now }
        ensures cause { HasCause self.old.faults self.new.faults result }
        ensures same { Unit {0} }
        ensures failed { is_err result ≡ (is_next_listed self.old.calls
            || is_past self.old.link.taken self.old.capacity piece.now) }
        ensures count { IfOk result (λ count. count ≡ length piece.now) }
        ensures pieces { self.new.pieces ≡ self.old.pieces }
        ensures capacity { self.new.capacity ≡ self.old.capacity }
        ensures calls { self.new.calls ≡ after_call self.old.calls }
        ensures faults { self.new.faults ≡ faults_after self.old.faults result }
    {
        if self.calls.count() || self.output.is_past(piece) {
            self.faults.rise();
            return Err(Failed);
        }
        self.output.take(piece);
        Ok(piece.len())
    }

    fn finish(&mut self)
        ensures told { Some self.new.link ≡ Some self.old.link }
        ensures faults { self.new.faults ≡ self.old.faults }
        ensures same { Unit {0} }
        ensures stays { self.new ≡ self.old }
    {}
}
