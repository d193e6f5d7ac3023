//! The rounds of a run.
ghost use Rattle.std.specs.Prelude.{◌≡◌, ◌≤◌, ℕ, List, true};
ghost use Rattle.ots_base.specs.Cause.{Rose};
ghost use Rattle.ots_disk.specs.Disk.{LeavesOnly};
ghost use Rattle.ots_journal.specs.Image.{Stands};
ghost use Rattle.ots_opening.specs.Images.{StandsAfter};
ghost use Rattle.ots_outputs.specs.Printed.{SinkStays};
ghost use Rattle.ots_store.specs.Order.{records_of};
ghost use Rattle.ots_store.specs.Records.{Record};
ghost use Rattle.ots_mirror.specs.Honest.{HonestOwner, StandsAlong};
ghost use Rattle.ots_mirror.specs.Rounds.{MakesRounds, RoundsEnd, held_in};

use crate::printing::print_round;
use crate::round::round;
use ots_address::Address;
use ots_disk::Disk;
use ots_mirror_words::{MirrorStatus, RoundOutcome};
use ots_outside::{Dialer, Failed, Sink};
use ots_store::Store;
use std::alloc::Global;

/// Makes up to so many rounds over a sure store, and prints the line of each. The first in which the
/// calendar has no record that the mirror lacks is the last. It answers the status of that.
pub fn make_rounds<D: Disk, K: Sink, T: Dialer>(
    alloc: Global,
    address: &Address,
    rounds: u64,
    store: &mut Store<D>,
    out: &mut K,
    dialer: &mut T,
) -> MirrorStatus
    requires known { store.old.records ≡ records_of store.old.journal.entries }
    requires sure { store.old.journal.is_sure ≡ true }
    requires stands { (c : List ℕ) → D.images store.old.journal.disk c → Stands c store.old.journal.entries }
    ensures made { RoundsEnd (MakesRounds T.told T.faults address.now store.old.journal.limit
        (Rose (D.faults store.old.journal.disk) (D.faults store.new.journal.disk))
        (Rose (K.faults out.old) (K.faults out.new)) rounds (held_in store.old.journal) dialer.old dialer.new)
        (D.images store.new.journal.disk) store.new.journal.entries (Rose (K.faults out.old) (K.faults out.new))
        (K.taken out.old) (K.taken out.new) result }
    ensures keeps { LeavesOnly D.clock D.images_since store.old.journal.disk store.new.journal.disk
        (StandsAfter store.old.journal.entries) }
    ensures moments { (all : List Record) → HonestOwner all store.old.records (T.told dialer.old)
        → LeavesOnly D.clock D.images_since store.old.journal.disk store.new.journal.disk
        (StandsAlong store.old.journal.entries all) }
    ensures known { store.new.records ≡ records_of store.new.journal.entries }
    ensures later { D.faults store.old.journal.disk ≤ D.faults store.new.journal.disk }
    ensures sink { SinkStays K.faults K.same out.old out.new }
{
    for _ in 0..rounds {
        match round(alloc, address, store, dialer) {
            Ok(outcome) => {
                if let Err(Failed) = print_round(&outcome, out) {
                    return MirrorStatus::WriteFault;
                }
                if let RoundOutcome::Current = outcome {
                    return MirrorStatus::Done;
                }
            }
            Err(why) => return why,
        }
    }
    MirrorStatus::Behind
}
