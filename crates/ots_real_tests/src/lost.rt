// Accepts that fail, by a network in memory.
use super::fake_net::{FakeNet, Outside};
use ots_io::{Accepter, Failed, TcpAccepter};
use std::alloc::Global;
use std::process::Abort;
use std::test::Fail;

/// Errors of one connection, by their numbers on Linux: EPERM, EINTR, EAGAIN, ENONET, EPROTO,
/// ENOPROTOOPT, EOPNOTSUPP, ENETDOWN, ENETUNREACH, ECONNABORTED, ECONNRESET, ETIMEDOUT, EHOSTDOWN
/// and EHOSTUNREACH.
const PASSING: [i32; 14] = [1, 4, 11, 64, 71, 92, 95, 100, 101, 103, 104, 110, 112, 113];

/// ENOMEM, ENFILE, EMFILE and ENOBUFS.
const SHORT: [i32; 4] = [12, 23, 24, 105];

/// EBADF, EACCES, EFAULT, EINVAL, ENOSYS, ENOTSOCK, and an error that Linux doesn't have.
const LASTING: [i32; 7] = [9, 13, 14, 22, 38, 88, 9_999];

/// Whether a connection is accepted and counted, by an accepter that listens or one that doesn't.
fn accepts(alloc: Global, outside: &Outside, is_listening: bool) -> Result<bool, Failed> {
    let mut accepter = TcpAccepter::new(FakeNet { outside }, alloc);
    if is_listening {
        accepter.listen(1)?;
    }
    let is_accepted = accepter.accept()?.is_some();
    Ok(is_accepted && accepter.accepted() == 1)
}

/// Whether a connection is accepted where this many accepts of the system fail first, with the error
/// of this number, and the time that it takes, in milliseconds.
fn accept_after(alloc: Global, number: i32, failures: u64) -> (bool, u64) {
    let outside = Outside::failing(number, failures);
    let is_accepted = accepts(alloc, &outside, true) == Ok(true);
    (is_accepted, outside.now())
}

/// Whether a connection is accepted, and the time that it takes.
fn expect(rt: &impl Abort, alloc: Global, number: i32, failures: u64, accepted: (bool, u64)) {
    assert_eq!(rt; accept_after(alloc, number, failures), accepted);
}

#[test]
fn an_accepter_that_does_not_listen_fails(rt: HostRuntime) -> Result<(), Fail> {
    let outside = Outside::failing(0, 0);
    assert_eq!(rt; accepts(rt.alloc(), &outside, false), Err(Failed));
    Ok(())
}

#[test]
fn a_lost_connection_is_passed_over(rt: HostRuntime) -> Result<(), Fail> {
    for number in PASSING {
        expect(&rt, rt.alloc(), number, 3, (true, 0));
    }
    // There is an end to it.
    expect(&rt, rt.alloc(), 103, u64::MAX, (false, 0));
    Ok(())
}

#[test]
fn a_shortness_is_waited_for(rt: HostRuntime) -> Result<(), Fail> {
    for number in SHORT {
        expect(&rt, rt.alloc(), number, 3, (true, 30));
        expect(&rt, rt.alloc(), number, 3_000, (true, 30_000));
        expect(&rt, rt.alloc(), number, 3_001, (false, 30_000));
    }
    Ok(())
}

#[test]
fn any_other_error_is_a_fault(rt: HostRuntime) -> Result<(), Fail> {
    for number in LASTING {
        expect(&rt, rt.alloc(), number, 1, (false, 0));
    }
    Ok(())
}
