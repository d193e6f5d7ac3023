//! Entries taken as records, one after another.
ghost use Rattle.std.specs.Prelude.{◌≡◌, ◌≤◌, ◌<◌, ◌+◌, ◌^◌, ◌++◌, ◌∷◌, [], List, ℕ, length, true, false, IfOk, IfErr};
ghost use Rattle.std.specs.Prelude.{OnOk, OnErr, MatchOption};
ghost use Rattle.std.specs.List.{AllByRecursion};
ghost use Rattle.ots_store.specs.Records.{Record, record_of, IsRecord};
ghost use Rattle.ots_store.specs.Order.{Follows, InOrder, AreRecords, FirstBad, records_of};
ghost use Rattle.ots_store.specs.Progress.{Passed, IsProgress};
ghost use Rattle.ots_store.specs.Held.{Holds};
ghost use Rattle.ots_store.specs.Opening.{IfBad, HeldTo, HeldNext, FollowTo};

use crate::form::form_of;
use crate::held::Held;
use crate::lists::Lists;
use crate::progress::{Progress, may_follow};
use crate::{StoreError, Tip};
use ots_base::OutOfMemory;
use ots_disk::Disk;
use ots_journal::{Entry, Journal};
use std::alloc::Global;

/// Holds the records of a journal.
pub fn hold_records<D: Disk>(alloc: Global, journal: &Journal<D>) -> Result<Held, StoreError>
    ensures ok { IfOk result (λ held. Holds (records_of journal.now.entries) [] held) }
    ensures are { OnOk result (AreRecords [] journal.now.entries) }
    ensures bad { IfErr result (λ e. IfBad e (FirstBad [] journal.now.entries)) }
{
    let mut lists = Lists::new(alloc);
    let mut progress = Progress {
        commits: 0,
        covered: 0,
        group: 0,
    };
    for i in 0..journal.count() {
        let (kind, payload) = journal.entry(i);
        if !hold_next(&mut lists, &mut progress, kind, payload)? {
            return Err(StoreError::BadRecord(i));
        }
    }
    Ok(Held::of(alloc, lists)?)
}

/// Holds one entry more, where it spells a record that may follow.
fn hold_next(
    lists: &mut Lists,
    progress: &mut Progress,
    kind: u8,
    payload: &[u8],
) -> Result<bool, OutOfMemory>
    requires passed { Passed [] progress.old }
    requires few { progress.old.commits < 2 ^ 63 }
    ensures few { progress.new.commits ≤ progress.old.commits + 1 }
    ensures yes { IfOk result (λ follows. follows ≡ true → (before : List Record) → HeldTo before lists.old progress.old
        → HeldNext before (record { kind = kind; payload = payload.now }) lists.new progress.new) }
    ensures no { IfOk result (λ follows. follows ≡ false → (before : List Record) → HeldTo before lists.old progress.old
        → IsRecord (record { kind = kind; payload = payload.now })
        → Follows before (record_of (record { kind = kind; payload = payload.now })) → ⊥) }
{
    let Some(form) = form_of(kind, payload) else {
        return Ok(false);
    };
    if !may_follow(&form, lists.tips(), &[], progress) {
        return Ok(false);
    }
    lists.stage(kind, payload)?;
    lists.keep();
    Ok(true)
}

/// Puts entries in flight, all or some prefix of them.
pub fn stage_entries(held: &mut Held, entries: &[Entry]) -> Result<(), OutOfMemory>
    requires { AllByRecursion IsRecord entries.now }
    ensures ok { OnOk result ((kept flight : List Record) → Holds kept flight held.old
        → Holds kept (flight ++ records_of entries.now) held.new) }
    ensures err { OnErr result ((kept flight : List Record) → Holds kept flight held.old
        → (some : List Record) × Holds kept some held.new) }
{
    for entry in entries {
        held.stage(entry.kind, entry.payload.items())?;
    }
    Ok(())
}

/// The first of these entries that spells no record, or none that may follow.
pub fn first_bad(tips: &[Tip], before: &Progress, entries: &[Entry]) -> Option<u64>
    requires group { before.now.group ≡ 0 }
    requires few { before.now.commits < 2 ^ 32 }
    ensures { (records : List Record) → InOrder [] records → IsProgress records tips.now [] before.now
        → MatchOption result (AreRecords records entries.now) (FirstBad records entries.now) }
{
    let mut progress = *before;
    for (i, entry) in entries.iter().enumerate() {
        if !follows_next(&mut progress, tips, &entries[..i], entry) {
            return Some(i as u64);
        }
    }
    None
}

/// Whether an entry spells a record that may follow.
fn follows_next(progress: &mut Progress, tips: &[Tip], group: &[Entry], entry: &Entry) -> bool
    requires passed { Passed group.now progress.old }
    requires each { AllByRecursion IsRecord group.now }
    requires few { progress.old.commits < 2 ^ 63 }
    ensures few { progress.new.commits ≤ progress.old.commits + 1 }
    ensures passed { Passed group.now progress.new }
    ensures is { result ≡ true → IsRecord entry.now }
    ensures yes { result ≡ true → (before : List Record) → InOrder [] before
        → FollowTo before group.now tips.now progress.old → FollowTo before (group.now ++ entry.now ∷ []) tips.now
        progress.new }
    ensures no { result ≡ false → (before : List Record) → InOrder [] before
        → FollowTo before group.now tips.now progress.old → IsRecord entry.now
        → Follows (before ++ records_of group.now) (record_of entry.now) → ⊥ }
{
    match form_of(entry.kind, entry.payload.items()) {
        Some(form) => may_follow(&form, tips, group, progress),
        None => false,
    }
}
