// The accepter in memory.
ghost use Rattle.std.specs.Prelude.{All, IfOk, Some};
ghost use Rattle.ots_io.specs.Link.{IsFresh};

use ots_io::{Accepter, BytesLink, Failed, Link, ListAccepter, OutOfMemory};
use std::alloc::Global;
use std::collections::VecDeque;
use std::process::Abort;
use std::test::Fail;

/// A link for each of these inputs.
fn links(alloc: Global, inputs: &[&[u8]]) -> Result<VecDeque<BytesLink>, OutOfMemory>
    ensures fresh { IfOk result (λ links. All (λ link. IsFresh (Some link.link) link.faults) links.items) }
{
    let mut links = VecDeque::new(alloc);
    for input in inputs {
        links.push_back(BytesLink::new(alloc, input, &[], 8, &[])?)?;
    }
    Ok(links)
}

/// An accepter of a link for each of these inputs, which fails at this call.
fn make_accepter(
    alloc: Global,
    inputs: &[&[u8]],
    failing: u64,
) -> Result<ListAccepter<BytesLink>, OutOfMemory> {
    ListAccepter::new(alloc, links(alloc, inputs)?, &[failing])
}

/// Writes what a link gives back to it.
fn echo<L: Link>(link: &mut L) {
    let mut buf = [0; 8];
    if let Ok(count) = link.read(&mut buf) {
        let _ = link.write(&buf[..count]);
    }
    link.finish();
}

/// Accepts a link and echoes it, and answers whether one came. Code over any accepter can't drop a
/// link, and gives it back.
fn answer_next<A: Accepter>(accepter: &mut A) -> Result<bool, Failed> {
    match accepter.accept()? {
        Some(mut link) => {
            echo(&mut link);
            accepter.give_back(link);
            Ok(true)
        }
        None => Ok(false),
    }
}

/// An accepter that is looked at past its calls.
trait Listed {
    /// How many links are to come.
    fn left(&self) -> usize;

    /// How many links were given back.
    fn given_back(&self) -> usize;

    /// Whether the link that was given back at this place has taken these bytes.
    fn has_returned(&self, place: usize, bytes: &[u8]) -> bool;
}

impl Listed for ListAccepter<BytesLink> {
    fn left(&self) -> usize {
        self.coming()
    }

    fn given_back(&self) -> usize {
        self.returned().len()
    }

    fn has_returned(&self, place: usize, bytes: &[u8]) -> bool {
        match self.returned().get(place) {
            Some(link) => link.taken() == bytes,
            None => false,
        }
    }
}

/// The next call answers so, and then so many links were accepted, and so many are to come.
fn expect_next<A: Accepter + Listed>(
    rt: &impl Abort,
    accepter: &mut A,
    answer: Result<bool, Failed>,
    accepted: u64,
    coming: usize,
) {
    let next = answer_next(accepter);
    let counts = (accepter.accepted(), accepter.left());
    assert_eq!(rt; (next, counts), (answer, (accepted, coming)));
}

/// It listens, or not.
fn expect_listening<A: Accepter>(rt: &impl Abort, accepter: &mut A, answer: Result<(), Failed>) {
    assert_eq!(rt; accepter.listen(14_788), answer);
}

/// Three links were given back, each with what it gave.
fn expect_echoed<A: Listed>(rt: &impl Abort, accepter: &A) {
    assert_eq!(rt; accepter.given_back(), 3);
    assert!(rt; accepter.has_returned(0, b"one"));
    assert!(rt; accepter.has_returned(1, b"two"));
    assert!(rt; accepter.has_returned(2, b"three"));
}

/// Three links come, one after the other.
fn in_order<A: Accepter + Listed>(rt: &impl Abort, accepter: &mut A) {
    expect_listening(rt, accepter, Ok(()));
    expect_next(rt, accepter, Ok(true), 1, 2);
    expect_next(rt, accepter, Err(Failed), 1, 2);
    expect_next(rt, accepter, Ok(true), 2, 1);
    expect_next(rt, accepter, Ok(true), 3, 0);
    expect_next(rt, accepter, Ok(false), 3, 0);
    expect_next(rt, accepter, Ok(false), 3, 0);
    expect_echoed(rt, accepter);
}

#[test]
fn links_come_in_their_order(rt: HostRuntime) -> Result<(), Fail> {
    // The calls are counted with `listen`, so the second `accept` fails.
    let mut accepter = make_accepter(rt.alloc(), &[b"one", b"two", b"three"], 3)?;
    in_order(&rt, &mut accepter);
    Ok(())
}

/// One link comes, and one more is given back, for which there is no room.
fn past_the_room<A: Accepter + Listed>(rt: &impl Abort, accepter: &mut A, more: A::Link) {
    expect_listening(rt, accepter, Err(Failed));
    expect_next(rt, accepter, Ok(true), 1, 0);
    accepter.give_back(more);
    expect_next(rt, accepter, Ok(false), 1, 0);
    assert_eq!(rt; accepter.given_back(), 1);
}

#[test]
fn a_link_past_the_room_is_dropped(rt: HostRuntime) -> Result<(), Fail> {
    let more = BytesLink::new(rt.alloc(), b"more", &[], 0, &[])?;
    let mut accepter = make_accepter(rt.alloc(), &[b"one"], 1)?;
    past_the_room(&rt, &mut accepter, more);
    Ok(())
}
