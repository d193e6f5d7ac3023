//! Pages of records.
ghost use Rattle.std.specs.Prelude.{◌≡◌, ◌≤◌, ◌<◌, ◌-◌, ◌^◌, ◌++◌, length, drop, OnOk};
ghost use Rattle.ots_journal.specs.Image.{entry_bytes, entries_bytes};
ghost use Rattle.ots_store.specs.Page.{fitting};

use crate::Store;
use ots_base::{MAX_REPLY_BODY, OutOfMemory};
use ots_disk::Disk;

/// The most entries of a page.
pub const MAX_PAGE_ENTRIES: u64 = 128;

/// The bytes of an entry before its payload: its kind and the length of its payload.
const ENTRY_HEAD: usize = 5;

/// Adds the entries of records from a number on, as many as fit whole into a page.
pub(crate) fn add_entries<D: Disk>(
    page: &mut Vec<u8>,
    store: &Store<D>,
    from: u64,
) -> Result<(), OutOfMemory>
    requires there { from ≤ length store.now.records }
    requires room { length page.old.items ≤ MAX_REPLY_BODY }
    ensures { OnOk result (page.new.items ≡ page.old.items ++ entries_bytes
        (fitting MAX_PAGE_ENTRIES (MAX_REPLY_BODY - length page.old.items) (drop from store.now.journal.entries))) }
{
    store.stands();
    for i in from..store.entries().min(from + MAX_PAGE_ENTRIES) {
        let (kind, payload) = store.entry(i);
        if page.len() + ENTRY_HEAD + payload.len() > MAX_REPLY_BODY {
            return Ok(());
        }
        add_entry(page, kind, payload)?;
    }
    Ok(())
}

/// Adds an entry: its kind, the length of its payload, and the payload.
fn add_entry(page: &mut Vec<u8>, kind: u8, payload: &[u8]) -> Result<(), OutOfMemory>
    requires { length payload.now < 2 ^ 32 }
    ensures { OnOk result (page.new.items
        ≡ page.old.items ++ entry_bytes (record { kind = kind; payload = payload.now })) }
{
    let length = payload.len() as u32;
    page.push(kind)?;
    page.extend_from_slice(&length.to_be_bytes())?;
    page.extend_from_slice(payload)?;
    Ok(())
}
