//! What a page offers to a mirror.
ghost use Rattle.std.specs.Prelude.{ℕ, List, IfOk};
ghost use Rattle.ots_mirror_pages.specs.Page.{IsPage};
ghost use Rattle.ots_mirror_pages.specs.Round.{IsOffer};

use crate::{Entries, Page, PageError, read_page};
use ots_base::OutOfMemory;
use ots_disk::Disk;
use ots_store::Store;
use std::alloc::Global;

/// What the body of a reply offers to a mirror that asked for the page at its own count of records.
#[derive(Debug, Drop)]
pub enum Offer {
    /// It is that page, and these entries spell records that may follow those that the mirror has: 1
    /// to 128, which can be added as one group.
    New(Entries),
    /// It is that page, and has no entry.
    Current,
    /// It is no page for that count, or one of its entries spells no record, or none that may follow.
    BadPage,
}

/// What a body offers to the mirror that has the records of this store.
pub fn offer_of<D: Disk>(alloc: Global, body: &[u8], store: &Store<D>) -> Result<Offer, OutOfMemory>
    ensures { IfOk result (IsOffer store.now.records body.now) }
{
    match read_page(alloc, body) {
        Ok(page) => Ok(offer_of_page(page, store)),
        Err(PageError::BadPage) => Ok(Offer::BadPage),
        Err(PageError::OutOfMemory) => Err(OutOfMemory),
    }
}

/// What a page offers.
fn offer_of_page<D: Disk>(page: Page, store: &Store<D>) -> Offer
    ensures { (body : List ℕ) → IsPage body page.first page.entries → IsOffer store.now.records body result }
{
    if page.first != store.entries() {
        return Offer::BadPage;
    }
    if let Some(_) = store.first_bad(page.entries.items()) {
        return Offer::BadPage;
    }
    if page.entries.items().is_empty() {
        return Offer::Current;
    }
    Offer::New(page.entries)
}
