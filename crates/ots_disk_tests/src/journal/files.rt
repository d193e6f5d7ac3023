// A journal on a real file.
use crate::file::files::file;
use ots_disk::Disk;
use ots_journal::{Journal, JournalError, Refused};
use std::alloc::Global;
use std::fs;
use std::test::Fail;

/// The most bytes of the file.
const LIMIT: u64 = 1000;

/// The journal on a disk, where it opens.
fn opened<D: Disk + Drop>(alloc: Global, disk: D) -> Result<Journal<D>, Fail> {
    match Journal::open(alloc, disk, LIMIT) {
        Ok(journal) => Ok(journal),
        Err(_) => Err(Fail::from("refused")),
    }
}

/// Why a disk is refused, if it is.
fn refusal<D: Disk + Drop>(alloc: Global, disk: D) -> Option<JournalError> {
    match Journal::open(alloc, disk, LIMIT) {
        Ok(_) => None,
        Err(Refused { why, .. }) => Some(why),
    }
}

/// Whether so many entries are there, each of 50 bytes of its index.
fn holds<D: Disk>(journal: &Journal<D>, count: u64) -> bool {
    if journal.count() != count {
        return false;
    }
    for i in 0..journal.count() {
        if journal.entry(i) != (7, [(i % 256) as u8; 50].as_slice()) {
            return false;
        }
    }
    true
}

/// Whether an entry of 50 bytes of this index is appended under it.
fn appends<D: Disk>(journal: &mut Journal<D>, index: u8) -> bool {
    journal.append(7, &[index; 50]) == Ok(u64::from(index))
}

/// Whether a new journal takes two entries, and another disk is kept out meanwhile.
fn takes_two<D: Disk + Drop>(alloc: Global, disk: D, other: D) -> Result<bool, Fail> {
    let mut journal = opened(alloc, disk)?;
    let are_taken = holds(&journal, 0) && appends(&mut journal, 0) && appends(&mut journal, 1);
    Ok(are_taken && refusal(alloc, other) == Some(JournalError::DiskFault))
}

/// Whether both are found, and a third is taken.
fn takes_a_third<D: Disk + Drop>(alloc: Global, disk: D) -> Result<bool, Fail> {
    let mut journal = opened(alloc, disk)?;
    Ok(holds(&journal, 2) && appends(&mut journal, 2))
}

/// Whether all three are found.
fn has_three<D: Disk + Drop>(alloc: Global, disk: D) -> Result<bool, Fail> {
    Ok(holds(&opened(alloc, disk)?, 3))
}

/// How far a journal is.
#[derive(Clone, Copy)]
enum Stage {
    Begun,
    GoneOn,
    Whole,
}

/// Whether the journal on a disk goes so far, with another disk of its file.
fn goes<D: Disk + Drop>(alloc: Global, disk: D, other: D, stage: Stage) -> Result<bool, Fail> {
    match stage {
        Stage::Begun => takes_two(alloc, disk, other),
        Stage::GoneOn => takes_a_third(alloc, disk),
        Stage::Whole => has_three(alloc, disk),
    }
}

/// Whether the journal on a file goes so far.
fn of_file(rt: &HostRuntime, name: &str, stage: Stage) -> Result<bool, Fail> {
    goes(rt.alloc(), file(rt, name)?, file(rt, name)?, stage)
}

#[test]
fn what_is_appended_is_found_again(rt: HostRuntime) -> Result<(), Fail> {
    let name = "ots_journal_tests.file";
    // An earlier run that was cut off may have left it.
    let _ = fs::remove_file(&rt, name);
    assert!(rt; of_file(&rt, name, Stage::Begun)?);
    assert_eq!(rt; fs::read(&rt, name)?.len(), 133);
    assert!(rt; of_file(&rt, name, Stage::GoneOn)?);
    assert!(rt; of_file(&rt, name, Stage::Whole)?);
    fs::remove_file(&rt, name)?;
    Ok(())
}
