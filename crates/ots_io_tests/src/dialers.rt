// The dialer in memory.
use super::links::one_as_a_link;
use ots_io::{DialError, Dialer, DialerRoom, Failed, ScriptDialer, SentTo};
use std::process::Abort;
use std::test::Fail;

/// A dialer that is looked at past its calls.
pub trait Sent {
    /// Whether these bytes were sent to this host and port in the conversation at this place.
    fn has_sent(&self, place: usize, host: &str, port: u16, bytes: &[u8]) -> bool;

    /// Whether there was no conversation at this place.
    fn lacks(&self, place: usize) -> bool;
}

impl Sent for ScriptDialer {
    fn has_sent(&self, place: usize, host: &str, port: u16, bytes: &[u8]) -> bool {
        self.sent(place) == Some(SentTo { host, port, bytes })
    }

    fn lacks(&self, place: usize) -> bool {
        self.sent(place).is_none()
    }
}

/// What is tried with a dialer.
#[derive(Clone, Copy)]
pub enum Trial {
    TwoAtOnce,
    FailedConnect,
    FailedCalls,
    PastTheRoom,
    OneAsALink,
}

/// Tries this with a dialer that is new.
fn try_dialer<D: Dialer + Sent>(rt: &impl Abort, dialer: &mut D, trial: Trial) {
    match trial {
        Trial::TwoAtOnce => two_at_once(rt, dialer),
        Trial::FailedConnect => failed_connect(rt, dialer),
        Trial::FailedCalls => failed_calls(rt, dialer),
        Trial::PastTheRoom => past_the_room(rt, dialer),
        Trial::OneAsALink => one_as_a_link(rt, dialer),
    }
}

/// Tries this with a dialer in memory that has these replies and this room, of which these calls fail.
pub fn try_in_memory(
    rt: &(impl Abort + AllocGlobal),
    replies: &[&[u8]],
    room: DialerRoom,
    failing: &[u64],
    trial: Trial,
) -> Result<(), Fail> {
    let mut dialer = ScriptDialer::new(rt.alloc(), replies, room, failing)?;
    try_dialer(rt, &mut dialer, trial);
    Ok(())
}

const ROOM: DialerRoom = DialerRoom {
    conversations: 3,
    host_length: 9,
    bytes: 6,
};

/// What a call answered, and what its buffer then held.
type Read = (Result<usize, Failed>, [u8; 8]);

/// Begins a conversation, sends a piece, reads once and ends it.
fn converse<D: Dialer>(dialer: &mut D, host: &str, piece: &[u8]) -> Result<Read, DialError> {
    let slot = dialer.connect(host, 80)?;
    let mut buf = [0; 8];
    let sent = dialer.write(slot, piece);
    let read = dialer.read(slot, &mut buf);
    dialer.close(slot);
    Ok((sent.and(read), buf))
}

/// Begins two conversations, sends in the second and then in the first, and reads both likewise.
fn hold_two<D: Dialer>(dialer: &mut D) -> Result<[Read; 2], DialError> {
    let a = dialer.connect("a.example", 80)?;
    let b = dialer.connect("b.example", 8080)?;
    let mut first = [0; 8];
    let mut second = [0; 8];
    let sent_second = dialer.write(b, b"bb");
    let sent_first = dialer.write(a, b"aaa");
    let read_second = dialer.read(b, &mut second);
    let read_first = dialer.read(a, &mut first);
    Ok([
        (sent_first.and(read_first), first),
        (sent_second.and(read_second), second),
    ])
}

/// Begins a conversation, and sends and reads twice.
fn converse_twice<D: Dialer>(dialer: &mut D) -> Result<[Read; 2], DialError> {
    let slot = dialer.connect("a.example", 80)?;
    let mut first = [0; 8];
    let mut second = [0; 8];
    let sent = dialer.write(slot, b"ab");
    let sent_again = dialer.write(slot, b"cd");
    let read = dialer.read(slot, &mut first);
    let read_again = dialer.read(slot, &mut second);
    Ok([
        (sent.and(read), first),
        (sent_again.and(read_again), second),
    ])
}

/// A conversation with this host, in which this piece is sent, comes to this.
fn expect<D: Dialer>(
    rt: &impl Abort,
    dialer: &mut D,
    host: &str,
    piece: &[u8],
    answer: Result<Read, DialError>,
) {
    assert_eq!(rt; converse(dialer, host, piece), answer);
}

/// Two conversations at once come to their replies, and a third one to none.
fn expect_two<D: Dialer>(rt: &impl Abort, dialer: &mut D) {
    let answers = hold_two(dialer);
    assert_eq!(rt;
        answers,
        Ok([(Ok(5), *b"first\0\0\0"), (Ok(6), *b"second\0\0")])
    );
    // The list of replies is at its end.
    expect(rt, dialer, "c.example", b"", Ok((Ok(0), [0; 8])));
}

fn two_at_once<D: Dialer + Sent>(rt: &impl Abort, dialer: &mut D) {
    expect_two(rt, dialer);
    assert!(rt; dialer.has_sent(0, "a.example", 80, b"aaa"));
    assert!(rt; dialer.has_sent(1, "b.example", 8080, b"bb"));
    assert!(rt; dialer.has_sent(2, "c.example", 80, b""));
    assert!(rt; dialer.lacks(3));
}

#[test]
fn two_conversations_are_held_at_once(rt: HostRuntime) -> Result<(), Fail> {
    try_in_memory(&rt, &[b"first", b"second"], ROOM, &[], Trial::TwoAtOnce)
}

fn failed_connect<D: Dialer + Sent>(rt: &impl Abort, dialer: &mut D) {
    let two = Ok((Ok(3), *b"two\0\0\0\0\0"));
    expect(rt, dialer, "a.example", b"abc", Err(DialError::Failed));
    expect(rt, dialer, "a.example", b"abc", two);
    expect(rt, dialer, "a.example", b"abc", Ok((Ok(0), [0; 8])));
    assert!(rt; dialer.lacks(2));
}

#[test]
fn a_failed_connect_takes_its_reply(rt: HostRuntime) -> Result<(), Fail> {
    try_in_memory(&rt, &[b"one", b"two"], ROOM, &[1], Trial::FailedConnect)
}

fn failed_calls<D: Dialer + Sent>(rt: &impl Abort, dialer: &mut D) {
    let answers = converse_twice(dialer);
    assert_eq!(rt;
        answers,
        Ok([(Err(Failed), [0; 8]), (Ok(5), *b"reply\0\0\0")])
    );
    assert!(rt; dialer.has_sent(0, "a.example", 80, b"cd"));
}

#[test]
fn a_failed_write_or_read_leaves_the_next_one_whole(rt: HostRuntime) -> Result<(), Fail> {
    try_in_memory(&rt, &[b"reply"], ROOM, &[2, 4], Trial::FailedCalls)
}

fn past_the_room<D: Dialer>(rt: &impl Abort, dialer: &mut D) {
    let second = Ok((Ok(1), *b"2\0\0\0\0\0\0\0"));
    let third = Ok((Err(Failed), *b"3\0\0\0\0\0\0\0"));
    let fourth = Ok((Ok(1), *b"4\0\0\0\0\0\0\0"));
    expect(rt, dialer, "too.long.a", b"", Err(DialError::Failed));
    expect(rt, dialer, "a.example", b"123456", second);
    expect(rt, dialer, "b.example", b"1234567", third);
    expect(rt, dialer, "", b"", fourth);
    expect(rt, dialer, "d.example", b"", Err(DialError::Failed));
}

#[test]
fn a_dialer_fails_where_its_room_is_passed(rt: HostRuntime) -> Result<(), Fail> {
    try_in_memory(
        &rt,
        &[b"1", b"2", b"3", b"4"],
        ROOM,
        &[],
        Trial::PastTheRoom,
    )
}
