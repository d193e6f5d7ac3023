//! The command `upgrade`.
ghost use Rattle.std.specs.Prelude.{◌≡◌, ◌⊎◌, Some};
ghost use Rattle.ots_client_endings.specs.Outside.{Hears};
ghost use Rattle.ots_client_endings.specs.Runs.{Runs, at};
ghost use Rattle.ots_client_words.specs.Words.{read_upgrading};
ghost use Rattle.ots_completing.specs.Asking.{AsksUpTo};
ghost use Rattle.ots_completing.specs.Complete.{CanUpgrade, Concludes, IsResult};
ghost use Rattle.ots_completing.specs.Upgrade.{Upgrades, inputs_upgraded};
ghost use Rattle.ots_outside.specs.Shelf.{Names};

use crate::writing::write_upgraded;
use ots_base::{MAX_PROOF_FILE, OutOfMemory};
use ots_client_endings::refuse_stop;
use ots_client_inputs::{read_list, read_proof};
use ots_client_text::Status;
use ots_client_words::Upgrading;
use ots_outside::{Dialer, Shelf, Sink};
use ots_upgrade::upgrade_within;
use std::alloc::Global;

/// Asks calendars to complete the proof that is under a name, and writes the result under another that is not there
/// yet. A line is printed before for each pair of a calendar's URI and a message that the proof asks for, and after it
/// whether some path of the result ends in Bitcoin: it is done then, and says no otherwise. A result of more than
/// 4,194,304 bytes is not made. Only the calendars of the list are asked, each in a conversation of its own.
pub fn upgrade<S: Shelf, K: Sink, D: Dialer>(
    alloc: Global,
    asked: Upgrading<'_>,
    shelf: &mut S,
    out: &mut K,
    dialer: &mut D,
) -> Status
    ensures runs { Runs
        (λ told. Upgrades (Hears D.told D.faults dialer.old dialer.new) told (read_upgrading asked.entry))
        (inputs_upgraded (read_upgrading asked.entry)) (at S.told S.faults K.taken K.faults shelf.old out.old)
        (at S.told S.faults K.taken K.faults shelf.new out.new) result }
    ensures asks { (dialer.new ≡ dialer.old)
        ⊎ AsksUpTo D.told D.faults (S.told shelf.old).names (read_upgrading asked.entry) dialer.old dialer.new }
    ensures completes { (names : Names) → (S.told shelf.old).names ≡ Some names
        → CanUpgrade names (read_upgrading asked.entry)
        → Concludes (IsResult (Hears D.told D.faults dialer.old dialer.new) (Some names) (read_upgrading asked.entry))
        (at S.told S.faults K.taken K.faults shelf.old out.old)
        (at S.told S.faults K.taken K.faults shelf.new out.new) result }
    ensures same { K.same out.old out.new }
{
    let calendars = match read_list(alloc, asked.calendars) {
        Ok(calendars) => calendars,
        Err(stop) => return refuse_stop(stop, out),
    };
    let proof = match read_proof(alloc, asked.proof, shelf) {
        Ok(proof) => proof,
        Err(stop) => return refuse_stop(stop, out),
    };
    match upgrade_within(alloc, dialer, &calendars, &proof, MAX_PROOF_FILE as u32) {
        Ok(upgraded) => write_upgraded(&upgraded, asked.to, shelf, out),
        Err(OutOfMemory) => Status::OutOfMemory,
    }
}
