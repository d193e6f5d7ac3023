// A real file in the working folder, and failures of the system that come on any Linux.
use ots_disk::Disk;
use ots_file::{FileDisk, SystemFile};
use std::fs;
use std::os::unix::fs::symlink;
use std::test::Fail;

/// The disk over a file.
pub fn file<'a>(
    rt: &'a HostRuntime,
    name: &str,
) -> Result<FileDisk<SystemFile<&'a HostRuntime>>, Fail> {
    let name = String::from_str(rt.alloc(), name)?;
    Ok(FileDisk::new(SystemFile::new(rt, name)))
}

/// Whether so many bytes are there.
fn has<D: Disk>(disk: &mut D, length: u64) -> bool {
    disk.len() == Ok(length)
}

/// Whether a piece is written at the start.
fn begin<D: Disk>(disk: &mut D, piece: &[u8]) -> bool {
    disk.write_at(0, piece).is_ok()
}

/// Whether a piece is written at a place within the bytes that are there.
fn write<D: Disk>(disk: &mut D, place: u64, piece: &[u8]) -> bool {
    match disk.len() {
        Ok(length) if place <= length => disk.write_at(place, piece).is_ok(),
        _ => false,
    }
}

/// Whether a read of eight bytes from a place on gives these.
fn read<D: Disk>(disk: &mut D, place: u64, bytes: &[u8]) -> bool {
    let mut buf = [b'-'; 8];
    match disk.read_at(place, &mut buf) {
        Ok(count) => &buf[..count] == bytes,
        Err(_) => false,
    }
}

fn settle<D: Disk>(disk: &mut D) -> bool {
    disk.sync().is_ok()
}

/// What the system says that the file holds.
fn holds(rt: &HostRuntime, name: &str, bytes: &[u8]) -> bool {
    match fs::read(rt, name) {
        Ok(held) => held.as_slice() == bytes,
        Err(_) => false,
    }
}

/// Whether a new disk takes a text, and a letter over it, without a fault.
fn takes_text<D: Disk + Drop>(mut disk: D) -> bool {
    let is_begun = has(&mut disk, 0) && begin(&mut disk, b"a journal");
    is_begun && write(&mut disk, 2, b"J") && settle(&mut disk) && disk.faults() == 0
}

/// Whether a disk has that text.
fn has_text<D: Disk + Drop>(mut disk: D) -> bool {
    has(&mut disk, 9) && read(&mut disk, 2, b"Journal")
}

/// Whether a sync of a disk is done.
fn takes_sync<D: Disk + Drop>(mut disk: D) -> bool {
    settle(&mut disk)
}

/// Whether the second holder of a new file is kept out while the first one writes.
fn keeps_out<D: Disk + Drop>(mut first: D, second: &mut D) -> bool {
    let is_kept_out = has(&mut first, 0) && !has(second, 0) && !begin(second, b"x");
    is_kept_out && begin(&mut first, b"mine") && first.faults() == 0
}

/// The same, and whether the second finds four bytes once the first is gone.
fn comes_after<D: Disk + Drop>(first: D, mut second: D) -> bool {
    keeps_out(first, &mut second) && has(&mut second, 4) && second.faults() == 2
}

/// Whether a disk can't be used, with a fault at each call.
fn fails<D: Disk + Drop>(mut disk: D) -> bool {
    let is_used = has(&mut disk, 0) || read(&mut disk, 0, b"");
    let is_used = is_used || begin(&mut disk, b"x") || settle(&mut disk);
    !is_used && disk.faults() == 4
}

/// Whether a disk takes a byte.
fn takes_byte<D: Disk + Drop>(mut disk: D) -> bool {
    begin(&mut disk, b"x")
}

/// Whether a text is added to the three bytes that are there, and another disk is kept out then.
fn takes_more<D: Disk + Drop>(mut disk: D, mut other: D) -> bool {
    let is_added = has(&mut disk, 3) && write(&mut disk, 3, b" and new");
    is_added && settle(&mut disk) && !has(&mut other, 11)
}

/// What is done with a disk, or with two of one file.
#[derive(Clone, Copy)]
enum Use {
    Nothing,
    TakeText,
    HaveText,
    TakeSync,
    ComeAfter,
    Fail,
    TakeByte,
    TakeMore,
}

/// Whether disks do so.
fn do_so<D: Disk + Drop>(disk: D, other: D, what: Use) -> bool {
    match what {
        Use::Nothing => true,
        Use::TakeText => takes_text(disk),
        Use::HaveText => has_text(disk),
        Use::TakeSync => takes_sync(disk),
        Use::ComeAfter => comes_after(disk, other),
        Use::Fail => fails(disk),
        Use::TakeByte => takes_byte(disk),
        Use::TakeMore => takes_more(disk, other),
    }
}

/// Whether the disks of these files do so. No other function holds one, since each that does takes the
/// prover long.
fn of_files(rt: &HostRuntime, name: &str, other: &str, what: Use) -> Result<bool, Fail> {
    Ok(do_so(file(rt, name)?, file(rt, other)?, what))
}

/// Whether the disk of a file does so.
fn of_file(rt: &HostRuntime, name: &str, what: Use) -> Result<bool, Fail> {
    of_files(rt, name, name, what)
}

#[test]
fn a_file_is_made_written_and_found_again(rt: HostRuntime) -> Result<(), Fail> {
    let name = "ots_file_tests.file";
    // An earlier run that was cut off may have left it.
    let _ = fs::remove_file(&rt, name);
    assert!(rt; of_file(&rt, name, Use::TakeText)?);
    assert!(rt; holds(&rt, name, b"a Journal"));
    assert!(rt; of_file(&rt, name, Use::HaveText)?);
    fs::remove_file(&rt, name)?;
    Ok(())
}

#[test]
fn the_first_call_makes_the_file(rt: HostRuntime) -> Result<(), Fail> {
    let name = "ots_file_tests.made";
    let _ = fs::remove_file(&rt, name);
    // A disk that is not called makes none.
    assert!(rt; of_file(&rt, name, Use::Nothing)? && !holds(&rt, name, b""));
    assert!(rt; of_file(&rt, name, Use::TakeSync)? && holds(&rt, name, b""));
    fs::remove_file(&rt, name)?;
    Ok(())
}

#[test]
fn a_second_holder_is_kept_out_until_the_first_is_gone(rt: HostRuntime) -> Result<(), Fail> {
    let name = "ots_file_tests.held";
    let _ = fs::remove_file(&rt, name);
    assert!(rt; of_file(&rt, name, Use::ComeAfter)?);
    fs::remove_file(&rt, name)?;
    Ok(())
}

#[test]
fn what_is_no_regular_file_is_a_fault(rt: HostRuntime) -> Result<(), Fail> {
    // A folder, a device, and a name in a folder that isn't there.
    assert!(rt; of_file(&rt, ".", Use::Fail)?);
    assert!(rt; of_file(&rt, "/dev/null", Use::Fail)?);
    assert!(rt; of_file(&rt, "no-such-folder/journal", Use::Fail)?);
    Ok(())
}

#[test]
fn a_name_in_a_folder_is_made_there(rt: HostRuntime) -> Result<(), Fail> {
    let _ = fs::create_dir(&rt, "ots_file_tests.folder");
    let name = "ots_file_tests.folder/journal";
    assert!(rt; of_file(&rt, name, Use::TakeByte)? && holds(&rt, name, b"x"));
    fs::remove_file(&rt, name)?;
    fs::remove_dir(&rt, "ots_file_tests.folder")?;
    Ok(())
}

#[test]
fn a_link_leads_to_its_file_and_one_that_leads_nowhere_is_a_fault(
    rt: HostRuntime,
) -> Result<(), Fail> {
    let (link, file_name) = ("ots_file_tests.link", "ots_file_tests.linked/journal");
    let _ = fs::remove_file(&rt, link);
    let _ = fs::remove_dir_all(&rt, "ots_file_tests.linked");
    fs::create_dir(&rt, "ots_file_tests.linked")?;
    symlink(&rt, file_name, link)?;
    assert!(rt; of_file(&rt, link, Use::Fail)? && !holds(&rt, file_name, b""));
    fs::write(&rt, file_name, b"old".as_slice())?;
    assert!(rt; of_files(&rt, link, file_name, Use::TakeMore)?);
    assert!(rt; holds(&rt, file_name, b"old and new"));
    fs::remove_file(&rt, link)?;
    fs::remove_dir_all(&rt, "ots_file_tests.linked")?;
    Ok(())
}
