use crate::serving::runs::{Left, Plan, run};
use crate::serving::staged::write_while_storing;
use ots_workers::ServeEnd;
use std::process::Abort;
use std::test::Fail;

/// So many links were accepted, and so many took a reply of status 200 and of 404; no link is left, and no ticket.
fn expect_left(rt: &impl Abort, left: &Left, count: u64, stamped: usize, unknown: usize) {
    assert_eq!(rt; left.ending, ServeEnd::Done);
    assert_eq!(rt; (left.count, left.coming), (count, 0));
    assert_eq!(rt;
        (left.stamped, left.unknown, left.waiting),
        (stamped, unknown, 0)
    );
}

#[test]
fn two_connections_are_served_at_once(rt: HostRuntime) -> Result<(), Fail> {
    // So many turns that a sync which waits for another connection is sure to see it.
    let plan = Plan {
        digests: 2,
        queries: 0,
        turns: 50_000_000,
    };
    let left = run(&rt, rt.alloc(), plan, 2)?;
    assert!(rt; left.met);
    expect_left(&rt, &left, 2, 2, 0);
    Ok(())
}

#[test]
fn a_reply_is_written_while_another_connections_digest_is_stored(
    rt: HostRuntime,
) -> Result<(), Fail> {
    let met = write_while_storing(&rt, rt.alloc())?;
    assert_eq!(rt; met.ending, ServeEnd::Done);
    assert_eq!(rt; (met.met, met.stamped, met.unknown), (2, 1, 1));
    Ok(())
}

#[test]
fn four_workers_answer_every_link(rt: HostRuntime) -> Result<(), Fail> {
    // So few that a sync which waits in vain is soon done.
    let plan = Plan {
        digests: 15,
        queries: 5,
        turns: 100,
    };
    let left = run(&rt, rt.alloc(), plan, 4)?;
    expect_left(&rt, &left, 20, 15, 5);
    Ok(())
}
