//! The writes and syncs that a journal makes of its disk.
ghost use Rattle.std.specs.Prelude.{◌≡◌, ◌↔◌, ◌≤◌, ◌<◌, ◌+◌, ◌++◌, [], true, false, ℕ, List, length, slice_index, Some};
ghost use Rattle.std.specs.Prelude.{IsTrue, IfOk, OnOk, OnErr};
ghost use Rattle.std.specs.Option.{option_map};
ghost use Rattle.ots_base.specs.Cause.{HasCause};
ghost use Rattle.ots_base.specs.Told.{IfTold};
ghost use Rattle.ots_disk.specs.Disk.{Torn, After, LeavesOnly, put};
ghost use Rattle.ots_journal.specs.Image.{open_gate, FitsGroup};
ghost use Rattle.ots_journal.specs.Journal.{IsAtMost, Keeps, StandsForEither, size_with};
ghost use Rattle.ots_journal.specs.Stored.{staged_bytes};

use crate::spelling::OPEN_GATE;
use crate::stored::Stored;
use ots_disk::Disk;
use ots_outside::Failed;

/// Writes a piece and makes it durable.
pub fn write_durably<D: Disk>(disk: &mut D, place: u64, piece: &[u8]) -> Result<(), Failed>
    requires { IfTold (D.bytes disk.old) (λ b. place ≤ length b) }
    ensures any_moment { LeavesOnly D.clock D.images_since disk.old disk.new
        (After (Torn place (length piece.now)) (D.images disk.old)) }
    ensures images { (c : List ℕ) → D.images disk.new c → After (Torn place (length piece.now)) (D.images disk.old) c }
    ensures written { OnOk result (D.bytes disk.new ≡ option_map (put place piece.now) (D.bytes disk.old)) }
    ensures only { OnOk result ((c : List ℕ) → D.images disk.new c → D.bytes disk.new ≡ Some c) }
    ensures cause { HasCause (D.faults disk.old) (D.faults disk.new) result }
{
    disk.write_at(place, piece)?;
    disk.sync()?;
    Ok(())
}

/// Whether the gate at a place is open, once all is durable.
pub fn is_gate_open<D: Disk>(disk: &mut D, gate: u64) -> Result<bool, Failed>
    ensures any_moment { LeavesOnly D.clock D.images_since disk.old disk.new (D.images disk.old) }
    ensures no_more { (c : List ℕ) → D.images disk.new c → D.images disk.old c }
    ensures same { D.bytes disk.new ≡ D.bytes disk.old }
    ensures only { OnOk result ((c : List ℕ) → D.images disk.new c → D.bytes disk.new ≡ Some c) }
    ensures gate { IfTold (D.bytes disk.old) (λ b. IfOk result (λ open_now. gate < length b
        → (IsTrue open_now ↔ (slice_index b gate ≡ open_gate)))) }
    ensures cause { HasCause (D.faults disk.old) (D.faults disk.new) result }
{
    disk.sync()?;
    let mut byte = [0u8; 1];
    let count = disk.read_at(gate, &mut byte)?;
    Ok(count == 1 && byte[0] == OPEN_GATE)
}

/// Writes the staged group after the closed gate. Only when it is durable is the gate opened.
pub fn put_staged<D: Disk>(disk: &mut D, stored: &Stored) -> Result<(), Failed>
    requires keeps { Keeps (D.images disk.old) stored.now.entries [] true stored.now.size }
    requires staged { stored.now.staged ≡ staged_bytes stored.now.flight }
    requires fits { FitsGroup stored.now.flight }
    ensures any_moment { LeavesOnly D.clock D.images_since disk.old disk.new
        (StandsForEither stored.now.entries stored.now.flight) }
    ensures within { (limit : ℕ) → size_with stored.now.size stored.now.flight ≤ limit
        → ((c : List ℕ) → D.images disk.old c → IsAtMost limit c)
        → LeavesOnly D.clock D.images_since disk.old disk.new (IsAtMost limit) }
    ensures failed { OnErr result (Keeps (D.images disk.new) stored.now.entries stored.now.flight false
        stored.now.size) }
    ensures put { OnOk result ((next : ℕ) → next + 1 ≡ size_with stored.now.size stored.now.flight
        → Keeps (D.images disk.new) (stored.now.entries ++ stored.now.flight) [] true next) }
    ensures cause { HasCause (D.faults disk.old) (D.faults disk.new) result }
{
    let gate = stored.size() as u64;
    let body = stored.body();
    write_durably(disk, gate + 1, body)?;
    write_durably(disk, gate, &[OPEN_GATE])?;
    Ok(())
}
