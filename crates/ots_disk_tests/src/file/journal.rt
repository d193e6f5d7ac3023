// A journal over a file of which each call fails in turn.
use ots_disk::{Disk, DiskRoom, MemoryDisk};
use ots_file::{FileDisk, MemoryFile};
use ots_journal::Journal;
use std::alloc::Global;
use std::test::Fail;

const ROOM: DiskRoom = DiskRoom {
    calls: 4,
    write: 9,
    file: 1000,
};

/// Opens a new journal and appends three entries, the first of fifty times the byte 1. It answers the
/// bytes of those that were acknowledged.
fn append_three<D: Disk + Drop>(alloc: Global, disk: D) -> Result<(Vec<u8>, D), Fail> {
    let mut acknowledged = Vec::new(alloc);
    match Journal::open(alloc, disk, 1000) {
        Ok(mut journal) => {
            for value in 1..4 {
                if journal.append(7, &[value; 50]).is_ok() {
                    acknowledged.push(value)?;
                }
            }
            Ok((acknowledged, journal.into_disk()))
        }
        Err(refused) => Ok((acknowledged, refused.disk)),
    }
}

/// The bytes of the entries that were acknowledged over a new file of which this call fails, the first
/// being 1, and what the device holds at last. A read or a write takes at most seven bytes.
fn left_by(alloc: Global, failing: u64) -> Result<(Vec<u8>, Vec<u8>), Fail> {
    let file = MemoryFile::new(alloc, &[], &[failing], 7)?;
    let (acknowledged, disk) = append_three(alloc, FileDisk::new(file))?;
    Ok((acknowledged, disk.into_file().device().to_vec(alloc)?))
}

/// The payloads of the entries of the journal on a disk, one after the other.
fn payloads<D: Disk + Drop>(alloc: Global, disk: D) -> Result<Vec<u8>, Fail> {
    let journal = match Journal::open(alloc, disk, 1000) {
        Ok(journal) => journal,
        Err(_) => return Err(Fail::from("the device holds no journal")),
    };
    let mut payloads = Vec::new(alloc);
    for i in 0..journal.count() {
        payloads.extend_from_slice(journal.entry(i).1)?;
    }
    Ok(payloads)
}

/// Whether the byte stands fifty times in a row.
fn has_entry(bytes: &[u8], value: u8) -> bool {
    bytes.windows(50).any(|some| some == [value; 50].as_slice())
}

/// How many entries were acknowledged where this call fails. The device must hold them.
fn kept(alloc: Global, failing: u64) -> Result<usize, Fail> {
    let (acknowledged, device) = left_by(alloc, failing)?;
    let held = payloads(alloc, MemoryDisk::new(alloc, &device, ROOM, &[])?)?;
    for value in &acknowledged {
        if !has_entry(&held, *value) {
            return Err(Fail::from("the device lacks an acknowledged entry"));
        }
    }
    Ok(acknowledged.len())
}

#[test]
fn the_device_holds_each_acknowledged_entry(rt: HostRuntime) -> Result<(), Fail> {
    // Every call fails once in some run.
    let mut failed_once: u64 = 0;
    for failing in 1..80 {
        if kept(rt.alloc(), failing)? < 3 {
            failed_once = failed_once.saturating_add(1);
        }
    }
    assert!(rt; failed_once > 30);
    assert_eq!(rt; kept(rt.alloc(), 1000)?, 3);
    Ok(())
}
