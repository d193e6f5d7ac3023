//! What a round takes of a reply.
ghost use Rattle.std.specs.Prelude.{◌≡◌, ◌≤◌, ℕ, List, true, length, MatchResult};
ghost use Rattle.ots_base.specs.Cause.{Rose};
ghost use Rattle.ots_journal.specs.Image.{FitsGroup, Stands};
ghost use Rattle.ots_store.specs.Order.{AreRecords, records_of};
ghost use Rattle.ots_mirror_pages.specs.Round.{Takes};
ghost use Rattle.ots_mirror.specs.Group.{Adds, AddsGroup, Stops, append_status};
ghost use Rattle.ots_mirror.specs.Round.{TakesBody, TakesGroup, TakesReply, without_reply};

use ots_base::OutOfMemory;
use ots_disk::Disk;
use ots_http::{HttpReply, ReplyError};
use ots_journal::{AppendError, Entry};
use ots_mirror_pages::{Offer, offer_of};
use ots_mirror_words::{MirrorStatus, RoundOutcome};
use ots_store::Store;
use std::alloc::Global;

/// Takes the page that a reply has into a sure store, and answers what came of the round, or why the
/// run stops.
pub fn take_reply<D: Disk>(
    alloc: Global,
    read: Result<HttpReply, ReplyError>,
    store: &mut Store<D>,
) -> Result<RoundOutcome, MirrorStatus>
    requires known { store.old.records ≡ records_of store.old.journal.entries }
    requires sure { store.old.journal.is_sure ≡ true }
    requires stands { (c : List ℕ) → D.images store.old.journal.disk c → Stands c store.old.journal.entries }
    ensures taken { MatchResult result
        (λ outcome. AddsGroup D.clock D.images D.images_since (TakesReply store.old.records read outcome)
        store.old.journal store.new.journal)
        (Stops D.clock D.images_since (Rose (D.faults store.old.journal.disk) (D.faults store.new.journal.disk))
        (TakesGroup (TakesReply store.old.records read)) store.old.journal store.new.journal) }
    ensures known { store.new.records ≡ records_of store.new.journal.entries }
    ensures later { D.faults store.old.journal.disk ≤ D.faults store.new.journal.disk }
{
    match read {
        Ok(HttpReply::Good(body)) => take_body(alloc, body.items(), store),
        Ok(HttpReply::Status(code)) => Ok(RoundOutcome::Status(code)),
        Err(why) => without_reply(why),
    }
}

/// What came of a round in which no reply was read. Want of memory stops the run.
fn without_reply(why: ReplyError) -> Result<RoundOutcome, MirrorStatus>
    ensures { result ≡ without_reply why }
{
    match why {
        ReplyError::TooLong => Ok(RoundOutcome::TooLong),
        ReplyError::BadHttp => Ok(RoundOutcome::BadHttp),
        ReplyError::LinkFault => Ok(RoundOutcome::Unreachable),
        ReplyError::OutOfMemory => Err(MirrorStatus::OutOfMemory),
    }
}

/// Takes the page that a body is.
fn take_body<D: Disk>(
    alloc: Global,
    body: &[u8],
    store: &mut Store<D>,
) -> Result<RoundOutcome, MirrorStatus>
    requires known { store.old.records ≡ records_of store.old.journal.entries }
    requires sure { store.old.journal.is_sure ≡ true }
    requires stands { (c : List ℕ) → D.images store.old.journal.disk c → Stands c store.old.journal.entries }
    ensures taken { MatchResult result
        (λ outcome. AddsGroup D.clock D.images D.images_since (TakesBody store.old.records body.now outcome)
        store.old.journal store.new.journal)
        (Stops D.clock D.images_since (Rose (D.faults store.old.journal.disk) (D.faults store.new.journal.disk))
        (TakesGroup (TakesBody store.old.records body.now)) store.old.journal store.new.journal) }
    ensures known { store.new.records ≡ records_of store.new.journal.entries }
    ensures later { D.faults store.old.journal.disk ≤ D.faults store.new.journal.disk }
{
    match offer_of(alloc, body, store) {
        Ok(Offer::New(entries)) => add_page(entries.items(), store),
        Ok(Offer::Current) => Ok(RoundOutcome::Current),
        Ok(Offer::BadPage) => Ok(RoundOutcome::BadPage),
        Err(OutOfMemory) => Err(MirrorStatus::OutOfMemory),
    }
}

/// Adds the entries of a page as one group.
fn add_page<D: Disk>(entries: &[Entry], store: &mut Store<D>) -> Result<RoundOutcome, MirrorStatus>
    requires sure { store.old.journal.is_sure ≡ true }
    requires fits { FitsGroup entries.now }
    requires follow { AreRecords store.old.records entries.now }
    ensures taken { (body : List ℕ) → Takes store.old.records body entries.now → MatchResult result
        (λ outcome. AddsGroup D.clock D.images D.images_since (TakesBody store.old.records body outcome)
        store.old.journal store.new.journal)
        (Stops D.clock D.images_since (Rose (D.faults store.old.journal.disk) (D.faults store.new.journal.disk))
        (TakesGroup (TakesBody store.old.records body)) store.old.journal store.new.journal) }
    ensures known { store.new.records ≡ records_of store.new.journal.entries }
    ensures later { D.faults store.old.journal.disk ≤ D.faults store.new.journal.disk }
{
    match store.add_group(entries) {
        Ok(()) => Ok(RoundOutcome::Took(entries.len() as u64)),
        Err(why) => Err(append_status(why)),
    }
}

/// The status of a group that was not added.
fn append_status(why: AppendError) -> MirrorStatus
    ensures { result ≡ append_status why }
{
    match why {
        AppendError::DiskFault => MirrorStatus::DiskFault,
        AppendError::Full { need, limit } => MirrorStatus::Full { need, limit },
        AppendError::OutOfMemory => MirrorStatus::OutOfMemory,
    }
}
