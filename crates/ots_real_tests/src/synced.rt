// Outputs that are synced, by a file system in memory.
use super::fake_files::{Calls, FakeFiles};
use ots_io::{CreateError, DirShelf, Failed, Shelf};
use std::alloc::Global;
use std::process::Abort;
use std::test::Fail;

/// What is answered to a `create`, and to two writes of what it made.
type Answers = Result<[Result<usize, Failed>; 2], CreateError>;

/// Two writes of a new name.
fn write_twice(alloc: Global, calls: &Calls) -> Answers {
    let mut shelf = DirShelf::new(FakeFiles { calls }, alloc);
    let slot = shelf.create("new")?;
    let first = shelf.write(slot, b"ab");
    let second = shelf.write(slot, b"xyz");
    shelf.close(slot);
    Ok([first, second])
}

/// Where the call after so many others fails, two writes answer so, and the calls have these digits.
fn expect(rt: &impl Abort, alloc: Global, before: u64, answers: Answers, made: u64) {
    let calls = Calls::failing_after(before);
    assert_eq!(rt; write_twice(alloc, &calls), answers);
    assert_eq!(rt; calls.made(), made);
}

#[test]
fn a_write_is_answered_after_its_sync(rt: HostRuntime) -> Result<(), Fail> {
    let alloc = rt.alloc();
    // The folder and the file are opened, the folder is synced, and then each write.
    expect(&rt, alloc, 99, Ok([Ok(2), Ok(3)]), 1_123_434);
    Ok(())
}

#[test]
fn each_failed_call_is_said_and_nothing_is_written_after_it(rt: HostRuntime) -> Result<(), Fail> {
    let alloc = rt.alloc();
    expect(&rt, alloc, 0, Err(CreateError::Failed), 1);
    expect(&rt, alloc, 1, Err(CreateError::Failed), 11);
    expect(&rt, alloc, 2, Err(CreateError::Failed), 112);
    expect(&rt, alloc, 3, Ok([Err(Failed), Err(Failed)]), 1_123);
    expect(&rt, alloc, 4, Ok([Err(Failed), Err(Failed)]), 11_234);
    expect(&rt, alloc, 5, Ok([Ok(2), Err(Failed)]), 112_343);
    expect(&rt, alloc, 6, Ok([Ok(2), Err(Failed)]), 1_123_434);
    Ok(())
}
