// The connection in memory, a link as a sink, and a conversation as a link.
ghost use Rattle.std.specs.Prelude.{OnOk};
ghost use Rattle.ots_io.specs.Dialer.{IsConversation, SameButConversation};
ghost use Rattle.ots_io.specs.Link.{SameButTaken, taken_of};
ghost use Rattle.ots_io.specs.Streams.{Takes};

use super::dialers::{Sent, Trial, try_in_memory};
use ots_io::{
    BytesLink, DialError, DialedLink, Dialer, DialerRoom, Failed, Link, LinkSink, Slot, write_all,
};
use std::process::Abort;
use std::test::Fail;

/// A link that is looked at past its calls.
trait Noted {
    /// Whether it has given these bytes and taken those, and has so many left.
    fn is_at(&self, given: &[u8], left: usize, taken: &[u8]) -> bool;
}

impl Noted for BytesLink {
    fn is_at(&self, given: &[u8], left: usize, taken: &[u8]) -> bool {
        self.given() == given && self.left() == left && self.taken() == taken
    }
}

/// Reads, writes `xyz` and `uv`, says that nothing more is written, and reads on.
fn exchange<L: Link>(link: &mut L, buf: &mut [u8]) -> [Result<usize, Failed>; 4]
    ensures same { L.same link.old link.new }
{
    let read = link.read(buf);
    let written = link.write(b"xyz");
    let written_after = link.write(b"uv");
    link.finish();
    let read_after = link.read(buf);
    [read, written, written_after, read_after]
}

/// An exchange over a link answers so, and then the link has given and taken these bytes, and has
/// so many left.
fn expect_over<L: Link + Noted>(
    rt: &impl Abort,
    link: &mut L,
    answers: [Result<usize, Failed>; 4],
    given: &[u8],
    left: usize,
    taken: &[u8],
) {
    assert_eq!(rt; exchange(link, &mut [0; 8]), answers);
    assert!(rt; link.is_at(given, left, taken));
}

/// The same over one that gives `abcdef`, two bytes at first, takes so many bytes, and fails at these
/// calls.
fn expect_exchange(
    rt: &(impl Abort + AllocGlobal),
    capacity: usize,
    failing: &[u64],
    answers: [Result<usize, Failed>; 4],
    given: &[u8],
    left: usize,
    taken: &[u8],
) -> Result<(), Fail> {
    let mut link = BytesLink::new(rt.alloc(), b"abcdef", &[2], capacity, failing)?;
    expect_over(rt, &mut link, answers, given, left, taken);
    Ok(())
}

#[test]
fn a_link_takes_up_to_its_capacity(rt: HostRuntime) -> Result<(), Fail> {
    let answers = [Ok(2), Ok(3), Ok(2), Ok(4)];
    expect_exchange(&rt, 5, &[], answers, b"abcdef", 0, b"xyzuv")?;
    let answers = [Ok(2), Ok(3), Err(Failed), Ok(4)];
    expect_exchange(&rt, 4, &[], answers, b"abcdef", 0, b"xyz")
}

#[test]
fn a_failed_call_leaves_the_next_one_whole(rt: HostRuntime) -> Result<(), Fail> {
    let answers = [Ok(2), Err(Failed), Ok(2), Err(Failed)];
    expect_exchange(&rt, 5, &[2, 4], answers, b"ab", 4, b"uv")?;
    let answers = [Err(Failed), Ok(3), Err(Failed), Ok(2)];
    expect_exchange(&rt, 5, &[1, 3], answers, b"ab", 4, b"xyz")
}

/// Writes a text to a link. Any link can be written so, and is known whole again afterwards.
fn write_link<L: Link>(link: &mut L, text: &[u8]) -> Result<(), Failed>
    ensures whole { OnOk result (Takes (taken_of (L.told link.old)) (taken_of (L.told link.new)) text.now) }
    ensures others { SameButTaken (L.told link.old) (L.told link.new) }
    ensures same { L.same link.old link.new }
{
    write_all(&mut LinkSink::new(link), text)
}

/// A write of the text is answered so, and then the link, which gives nothing, has taken these bytes.
fn expect_written<L: Link + Noted>(
    rt: &impl Abort,
    link: &mut L,
    text: &[u8],
    answer: Result<(), Failed>,
    taken: &[u8],
) {
    assert_eq!(rt; write_link(link, text), answer);
    assert!(rt; link.is_at(b"", 0, taken));
}

/// Four writes, of which the second fails, and the last for want of room.
fn expect_four_writes<L: Link + Noted>(rt: &impl Abort, link: &mut L) {
    expect_written(rt, link, b"abc", Ok(()), b"abc");
    expect_written(rt, link, b"de", Err(Failed), b"abc");
    expect_written(rt, link, b"de", Ok(()), b"abcde");
    expect_written(rt, link, b"f", Err(Failed), b"abcde");
}

#[test]
fn a_link_is_written_as_a_sink(rt: HostRuntime) -> Result<(), Fail> {
    let mut link = BytesLink::new(rt.alloc(), b"", &[], 5, &[2])?;
    expect_four_writes(&rt, &mut link);
    Ok(())
}

/// Exchanges over a conversation. Any dialer can be used so, and all but this conversation is as it
/// was.
fn exchange_over<D: Dialer>(
    dialer: &mut D,
    slot: Slot,
    buf: &mut [u8],
) -> [Result<usize, Failed>; 4]
    requires { IsConversation (D.told dialer.old) slot.0 }
    ensures same { SameButConversation slot.0 (D.told dialer.old) (D.told dialer.new) }
{
    exchange(&mut DialedLink::new(dialer, slot), buf)
}

/// What the exchange over the one conversation answered, and then a write to the other one and a
/// read of it.
type Held = ([Result<usize, Failed>; 4], [Result<usize, Failed>; 2]);

/// Holds two conversations at once, the second as a link.
fn hold_two<D: Dialer>(
    dialer: &mut D,
    by_link: &mut [u8],
    by_slot: &mut [u8],
) -> Result<Held, DialError> {
    let first = dialer.connect("a.example", 80)?;
    let second = dialer.connect("b.example", 8080)?;
    let answers = exchange_over(dialer, second, by_link);
    let sent = dialer.write(first, b"aaa");
    let read = dialer.read(first, by_slot);
    dialer.close(second);
    dialer.close(first);
    Ok((answers, [sent, read]))
}

/// The conversations are held so.
fn expect_held<D: Dialer>(rt: &impl Abort, dialer: &mut D) {
    let mut by_link = [0; 4];
    let mut by_slot = [0; 8];
    let held = hold_two(dialer, &mut by_link, &mut by_slot);
    assert_eq!(rt; held, Ok(([Ok(4), Ok(3), Ok(2), Ok(2)], [Ok(3), Ok(5)])));
    assert_eq!(rt; (by_link, by_slot), (*b"ndco", *b"first\0\0\0"));
}

pub fn one_as_a_link<D: Dialer + Sent>(rt: &impl Abort, dialer: &mut D) {
    expect_held(rt, dialer);
    assert!(rt; dialer.has_sent(0, "a.example", 80, b"aaa"));
    assert!(rt; dialer.has_sent(1, "b.example", 8080, b"xyzuv"));
}

#[test]
fn one_of_two_conversations_is_a_link(rt: HostRuntime) -> Result<(), Fail> {
    let room = DialerRoom {
        conversations: 2,
        host_length: 9,
        bytes: 5,
    };
    try_in_memory(&rt, &[b"first", b"second"], room, &[], Trial::OneAsALink)
}
