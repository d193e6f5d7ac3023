// As many connections are served at once as there are workers, and again after as many were served.
use crate::meeting::{count_met, two_groups};
use crate::run::serve;
use std::sync::Wait;
use std::test::Fail;
use std::thread::Threads;

/// The words of serving as many connections as come, by so many workers.
fn serve_with(workers: &str) -> [&str; 10] {
    [
        "j",
        "serve",
        "--key",
        "k",
        "--uri",
        "http://127.0.0.1:14788",
        "--port",
        "14788",
        "--workers",
        workers,
    ]
}

/// How a calendar with so many workers ended, and how many links met of two groups of as many.
fn meet<R: AllocGlobal + Threads + Wait + Sync>(
    rt: &R,
    workers: &str,
    count: u32,
) -> Result<(u8, usize), Fail> {
    let accepter = two_groups(rt.alloc(), count)?;
    let ended = serve(rt, &serve_with(workers), accepter)?;
    Ok((ended.status, count_met(&ended.accepter)))
}

#[test]
fn two_workers_serve_two_at_once(rt: HostRuntime) -> Result<(), Fail> {
    assert_eq!(rt; meet(&rt, "2", 2)?, (0, 4));
    Ok(())
}

#[test]
fn three_workers_serve_three_at_once(rt: HostRuntime) -> Result<(), Fail> {
    assert_eq!(rt; meet(&rt, "3", 3)?, (0, 6));
    Ok(())
}

#[test]
fn four_workers_serve_four_at_once(rt: HostRuntime) -> Result<(), Fail> {
    assert_eq!(rt; meet(&rt, "4", 4)?, (0, 8));
    Ok(())
}
