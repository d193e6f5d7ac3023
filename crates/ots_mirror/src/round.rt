//! One round.
ghost use Rattle.std.specs.Prelude.{◌≡◌, ◌≤◌, ℕ, List, length, true, MatchResult};
ghost use Rattle.ots_base.specs.Cause.{Rose};
ghost use Rattle.ots_journal.specs.Image.{Stands};
ghost use Rattle.ots_store.specs.Order.{records_of};
ghost use Rattle.ots_mirror.specs.Asking.{AsksInVain, HasRound};
ghost use Rattle.ots_mirror.specs.Group.{AddsGroup, StopsRound};
ghost use Rattle.ots_mirror.specs.Round.{TakesGroup};

use crate::page::take_reply;
use ots_address::Address;
use ots_conversation::converse;
use ots_disk::Disk;
use ots_http::Asked;
use ots_mirror_words::{MirrorStatus, RoundOutcome};
use ots_outside::Dialer;
use ots_store::Store;
use std::alloc::Global;

/// Asks a calendar for the page at the count of records of a sure store, in a conversation of its own,
/// and adds the entries of that page. It answers what came of that, or why the run stops.
pub fn round<D: Disk, T: Dialer>(
    alloc: Global,
    address: &Address,
    store: &mut Store<D>,
    dialer: &mut T,
) -> Result<RoundOutcome, MirrorStatus>
    requires known { store.old.records ≡ records_of store.old.journal.entries }
    requires sure { store.old.journal.is_sure ≡ true }
    requires stands { (c : List ℕ) → D.images store.old.journal.disk c → Stands c store.old.journal.entries }
    ensures made { MatchResult result
        (λ outcome. AddsGroup D.clock D.images D.images_since
        (HasRound T.told T.faults address.now store.old.records dialer.old dialer.new outcome)
        store.old.journal store.new.journal)
        (StopsRound D.clock D.images_since (Rose (D.faults store.old.journal.disk) (D.faults store.new.journal.disk))
        (TakesGroup (HasRound T.told T.faults address.now store.old.records dialer.old dialer.new))
        (AsksInVain T.told T.faults address.now store.old.records dialer.old dialer.new)
        store.old.journal store.new.journal) }
    ensures known { store.new.records ≡ records_of store.new.journal.entries }
    ensures later { D.faults store.old.journal.disk ≤ D.faults store.new.journal.disk }
{
    let asked = Asked::Records(store.entries());
    let read = converse(alloc, dialer, address, &asked);
    take_reply(alloc, read, store)
}
