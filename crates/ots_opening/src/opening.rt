//! Opening the store on a disk.
ghost use Rattle.std.specs.Prelude.{◌≡◌, IfErr, IfOk};
ghost use Rattle.ots_store.specs.Order.{records_of};
ghost use Rattle.ots_opening.specs.Opening.{Closes, Opens, RefusesStore};

use crate::Unopened;
use ots_disk::Disk;
use ots_journal::{Journal, MAX_JOURNAL, Refused};
use ots_store::{RefusedStore, Store};
use std::alloc::Global;

/// Opens the store on a disk, whose file may have at most `MAX_JOURNAL` bytes. A file of at most `EMPTY_JOURNAL` bytes
/// becomes an empty journal, whatever it holds; a longer one is never written to.
pub fn open_store<D: Disk>(alloc: Global, disk: D) -> Result<Store<D>, Unopened<D>>
    ensures records { IfOk result (λ s. s.records ≡ records_of s.journal.entries) }
    ensures ok { IfOk result (λ s. Opens D.bytes D.faults D.clock D.images D.images_since disk s.journal) }
    ensures err { IfErr result (λ u. Closes D.bytes D.faults D.clock D.images D.images_since RefusesStore disk u.disk
        u.why) }
{
    match Journal::open(alloc, disk, MAX_JOURNAL) {
        Ok(journal) => match Store::open(alloc, journal) {
            Ok(store) => Ok(store),
            Err(RefusedStore { disk, why }) => Err(Unopened {
                disk,
                why: why.into(),
            }),
        },
        Err(Refused { disk, why }) => Err(Unopened {
            disk,
            why: why.into(),
        }),
    }
}
