// Files that are written and read.
use super::folder::{Visit, visit_folder};
use ots_io::{StdSink, StdSource, read_all, write_all};
use std::fs::File;
use std::test::Fail;
use std::{fs, io};

/// Writes a file anew.
fn write_file(rt: &HostRuntime, name: &str, text: &[u8]) -> Result<(), Fail> {
    let mut sink = StdSink::new(File::create(rt, name)?);
    write_all(&mut sink, text)?;
    Ok(())
}

/// Whether a file holds exactly these bytes, of which there are at most six.
fn holds(rt: &HostRuntime, name: &str, bytes: &[u8]) -> Result<bool, Fail> {
    let mut source = StdSource::new(File::open(rt, name)?);
    let read = read_all(rt.alloc(), &mut source, 6)?;
    Ok(read.as_slice() == bytes)
}

/// Removes a file.
fn remove(rt: &HostRuntime, name: &str) -> io::Result<()> {
    fs::remove_file(rt, name)
}

#[test]
fn files_are_written_and_read(rt: HostRuntime) -> Result<(), Fail> {
    let name = "ots_real_tests.bin";
    write_file(&rt, name, b"abcdef")?;
    assert!(rt; holds(&rt, name, b"abcdef")?);
    visit_folder(&rt, rt, Visit::Read(name));
    remove(&rt, name)?;
    Ok(())
}

#[test]
fn a_file_is_created_and_never_overwritten(rt: HostRuntime) -> Result<(), Fail> {
    let name = "ots_real_tests.new";
    // An earlier run that was cut off may have left it.
    let _ = remove(&rt, name);
    visit_folder(&rt, rt, Visit::Create(name));
    remove(&rt, name)?;
    Ok(())
}

#[test]
fn two_files_are_written_in_turn(rt: HostRuntime) -> Result<(), Fail> {
    let first = "ots_real_tests.first";
    let second = "ots_real_tests.second";
    let _ = remove(&rt, first);
    let _ = remove(&rt, second);
    visit_folder(&rt, rt, Visit::WriteInTurn(first, second));
    assert!(rt; holds(&rt, first, b"abcd")?);
    assert!(rt; holds(&rt, second, b"xyz")?);
    remove(&rt, first)?;
    remove(&rt, second)?;
    Ok(())
}
