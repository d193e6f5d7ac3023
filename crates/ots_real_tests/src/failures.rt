// Failures of the system, each by a call that fails on any Linux.
ghost use Rattle.std.specs.Prelude.{IsTrue};
ghost use Rattle.ots_io.specs.Cause.{Rose};

use super::folder::{Visit, visit_folder};
use ots_io::{DialError, Dialer, Failed, Sink, StdSink, TcpDialer};
use std::fs;
use std::fs::{File, OpenOptions, Permissions};
use std::os::unix::fs::PermissionsExt;
use std::test::Fail;

/// Whether no conversation begins. That is a counted fault.
fn fails_to_connect<D: Dialer>(dialer: &mut D, host: &str, port: u16) -> bool
    ensures { IsTrue result → Rose (D.faults dialer.old) (D.faults dialer.new) }
{
    match dialer.connect(host, port) {
        Err(DialError::Failed) => true,
        _ => false,
    }
}

#[test]
fn a_folder_is_opened_and_not_read(rt: HostRuntime) -> Result<(), Fail> {
    visit_folder(&rt, rt, Visit::OpenUnreadable("."));
    Ok(())
}

#[test]
fn a_name_in_a_missing_folder_is_not_created(rt: HostRuntime) -> Result<(), Fail> {
    visit_folder(&rt, rt, Visit::FailToCreate("ots_real_tests.absent/new"));
    Ok(())
}

/// Makes a file that nobody may read.
fn close_file(rt: &HostRuntime, name: &str) -> Result<(), Fail> {
    let _ = fs::remove_file(rt, name);
    drop(File::create(rt, name)?);
    fs::set_permissions(rt, name, Permissions::from_mode(0))?;
    Ok(())
}

#[test]
fn a_file_without_rights_is_there(rt: HostRuntime) -> Result<(), Fail> {
    let name = "ots_real_tests.closed";
    close_file(&rt, name)?;
    // Who may read every file opens it; anyone else meets a fault, and never that it isn't there.
    visit_folder(&rt, rt, Visit::OpenOrFail(name));
    fs::remove_file(&rt, name)?;
    Ok(())
}

/// Whether a write fails.
fn fails_to_write<K: Sink>(sink: &mut K) -> bool {
    sink.write(b"a") == Err(Failed)
}

#[test]
fn a_full_disk_is_a_fault(rt: HostRuntime) -> Result<(), Fail> {
    // Where the system has no such device, there is nothing to try.
    if let Ok(full) = OpenOptions::new().write(true).open(&rt, "/dev/full") {
        assert!(rt; fails_to_write(&mut StdSink::new(full)));
    }
    Ok(())
}

#[test]
fn a_connection_is_refused(rt: HostRuntime) -> Result<(), Fail> {
    // Nobody listens on the first port.
    let mut dialer = TcpDialer::new(&rt, rt.alloc());
    assert!(rt; fails_to_connect(&mut dialer, "127.0.0.1", 1));
    Ok(())
}
