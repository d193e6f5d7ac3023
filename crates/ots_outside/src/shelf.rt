ghost use Rattle.std.specs.Prelude.{◌≡◌, ◌<◌, ℕ, length, IsTrue, IfOk, OnErr, IsErrOf};
ghost use Rattle.std.specs.Io.{ReadsAtMost, WritesAtMost};
ghost use Rattle.std.specs.FinMap as map;
ghost use Rattle.ots_base.specs.Cause.{HasCause, HasCauseWhere, CountsWhere};
ghost use Rattle.ots_outside.specs.Shelf.{ShelfTold, ShelfFaults, OnlyOpening, OnlyReading, OnlyWriting, closed};
ghost use Rattle.ots_outside.specs.Shelf.{is_reading, is_writing, left_of, name_of, SameButSlot, SameButNames, Stays};
ghost use Rattle.ots_outside.specs.Shelf.{Opens, OpensWhere, Creates, CreatesWhere, WritesTo};
ghost use Rattle.ots_base.specs.Told.{IfTold};
ghost use Rattle.ots_outside.specs.Streams.{Reads};

use crate::Failed;

/// The number of a slot, through which a shelf's name is read or written, or a conversation is
/// held.
#[derive(Clone, Copy, Debug, PartialEq, Eq)]
pub struct Slot(pub u32);

/// Why a name was not opened.
#[derive(Clone, Copy, Debug, PartialEq, Eq)]
pub enum OpenError {
    /// The shelf has no such name.
    NotThere,
    /// The call failed, and the shelf has counted the fault.
    Failed,
    /// Memory ran out.
    OutOfMemory,
}

/// Why a name was not created.
#[derive(Clone, Copy, Debug, PartialEq, Eq)]
pub enum CreateError {
    /// The shelf has this name already.
    Exists,
    /// The call failed, and the shelf has counted the fault.
    Failed,
    /// Memory ran out.
    OutOfMemory,
}

/// Bytes by name, as the files of a folder.
///
/// A name is opened to be read once from its start, or created to be written at its end, each
/// through a slot of its own until that is closed. A refusal leaves all that is told of names and
/// slots as it was, and a call on one slot or name leaves what is told of the others.
pub trait Shelf {
    /// What it tells: the bytes of each name, the names that were opened, what each slot is in use
    /// for, and how often an `open` or a `create` ran out of memory. At 2^64 - 1 that count stays.
    ghost told: { Self → ShelfTold };

    /// How often a call has failed: `open`, `read`, and `create` with `write`, a count each.
    ghost faults: { Self → ShelfFaults };

    /// Opens a name. `NotThere` is answered exactly where the told names lack it. After `Ok` the
    /// slot has the name's bytes left.
    fn open(&mut self, name: &str) -> Result<Slot, OpenError>
        ensures ok { IfOk result (λ slot. Opens name.now slot.0 (told self.old) (told self.new)) }
        ensures err { OnErr result (Stays (told self.old) (told self.new)) }
        ensures not_there { IfTold (told self.old).names (λ names. OpensWhere (map.get names name.now) result) }
        ensures cause { HasCauseWhere (IsErrOf result OpenError.Failed) (faults self.old).opening
            (faults self.new).opening }
        ensures counts { OnlyOpening (faults self.old) (faults self.new) }
        ensures short { CountsWhere (IsErrOf result OpenError.OutOfMemory) (told self.old).short
            (told self.new).short };

    /// Reads what an opened slot has left, as `Source::read` does.
    fn read(&mut self, slot: Slot, buf: &mut [u8]) -> Result<usize, Failed>
        requires { IsTrue (is_reading ((told self.old).slots slot.0)) }
        ensures bound { ReadsAtMost result buf.new }
        ensures bytes { Reads (left_of ((told self.old).slots slot.0)) (left_of ((told self.new).slots slot.0)) result
            buf.new }
        ensures cause { HasCause (faults self.old).reading (faults self.new).reading result }
        ensures counts { OnlyReading (faults self.old) (faults self.new) }
        ensures open { IsTrue (is_reading ((told self.new).slots slot.0)) }
        ensures others { SameButSlot slot.0 (told self.old) (told self.new) };

    /// Creates a name. `Exists` is answered exactly where the told names have it. After `Ok` the
    /// name holds no bytes.
    fn create(&mut self, name: &str) -> Result<Slot, CreateError>
        ensures ok { IfOk result (λ slot. Creates name.now slot.0 (told self.old) (told self.new)) }
        ensures err { OnErr result (Stays (told self.old) (told self.new)) }
        ensures exists { IfTold (told self.old).names (λ names. CreatesWhere (map.get names name.now) result) }
        ensures cause { HasCauseWhere (IsErrOf result CreateError.Failed) (faults self.old).writing
            (faults self.new).writing }
        ensures counts { OnlyWriting (faults self.old) (faults self.new) }
        ensures short { CountsWhere (IsErrOf result CreateError.OutOfMemory) (told self.old).short
            (told self.new).short };

    /// Writes to the name of a created slot, as `Sink::write` does.
    fn write(&mut self, slot: Slot, piece: &[u8]) -> Result<usize, Failed>
        requires { IsTrue (is_writing ((told self.old).slots slot.0)) }
        ensures bound { WritesAtMost result piece.now }
        ensures some { 0 < length piece.now → IfOk result (λ count. 0 < count) }
        ensures bytes { WritesTo (name_of ((told self.old).slots slot.0)) (told self.old) (told self.new) result
            piece.now }
        ensures cause { HasCause (faults self.old).writing (faults self.new).writing result }
        ensures counts { OnlyWriting (faults self.old) (faults self.new) }
        ensures others { SameButNames (told self.old) (told self.new) };

    /// Closes a slot. One that is closed already stays so.
    fn close(&mut self, slot: Slot)
        ensures closed { (told self.new).slots slot.0 ≡ closed }
        ensures others { SameButSlot slot.0 (told self.old) (told self.new) }
        ensures faults { faults self.new ≡ faults self.old };
}
