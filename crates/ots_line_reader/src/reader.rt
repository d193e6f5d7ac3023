//! A cursor over the lines of a source.
ghost use Rattle.std.specs.Prelude.{◌≡◌, ◌≤◌, ◌<◌, ◌+◌, ◌-◌, [], length, take, drop, IfOk};
ghost use Rattle.ots_base.specs.Cause.{HasCause};
ghost use Rattle.ots_outside.specs.Streams.{Reads};
ghost use Rattle.ots_line_reader.specs.Lines.{Advances, NoFeed};
ghost use Rattle.ots_line_reader.specs.inner.Spans.{IsSpan, bytes_in};
ghost use Rattle.ots_line_reader.specs.inner.Steps.{FillsOrNot, TakesLine};

use memchr::memchr;
use ots_outside::{Failed, Source};
use std::marker::Model;

/// How many bytes are held at once, at most. No line is longer, with its line feed.
pub const ROOM: usize = 65_536;

/// What comes next of a text.
#[derive(Clone, Copy)]
pub enum Found {
    /// A line, which ends with a line feed.
    Line,
    /// Nothing: the text is over.
    End,
    /// Bytes without a line feed, fewer than [`ROOM`], and then the end of the text.
    Cut,
    /// [`ROOM`] bytes without a line feed.
    Long,
}

/// Bytes of the room, from one place up to another.
#[derive(Clone, Copy)]
struct Span {
    start: usize,
    end: usize,
}

/// A cursor over the lines of a text that a source gives. It holds at most [`ROOM`] bytes that were read and not given
/// yet.
///
/// Contracts see the line that was found last, and the bytes that are held.
#[derive(Drop)]
pub struct LineReader {
    room: [u8; ROOM],
    line: Span,
    held: Span,
}

impl Model for LineReader {
    ghost use Rattle.ots_line_reader.specs.Lines.{Lines};
    ghost use Rattle.ots_line_reader.specs.inner.Spans.{IsSpan, bytes_in};

    ghost Value = { Lines };

    ghost view = { λ r. record { line = bytes_in r.line r.room; held = bytes_in r.held r.room } };

    ghost invariant = { λ r. IsSpan r.line × IsSpan r.held };
}

impl LineReader {
    /// No line was found, and nothing was read.
    pub fn new() -> LineReader
        ensures line { result.line ≡ [] }
        ensures held { result.held ≡ [] }
    {
        LineReader {
            room: [0; ROOM],
            line: Span { start: 0, end: 0 },
            held: Span { start: 0, end: 0 },
        }
    }

    /// The line that the last [`LineReader::advance`] found, without its line feed. It is empty where that found none.
    pub fn line(&self) -> &[u8]
        ensures { result.now ≡ self.now.line }
    {
        &self.room[self.line.start..self.line.end]
    }

    /// Goes on to the next line, and reads as far as that is wanted for it. What is no line stays to come, also where
    /// `Failed` says that a read failed, and the next call begins with it.
    pub fn advance<S: Source>(&mut self, source: &mut S) -> Result<Found, Failed>
        ensures step { Advances self.old self.new (S.left source.old) (S.left source.new) result }
        ensures cause { HasCause (S.faults source.old) (S.faults source.new) result }
        ensures same { S.same source.old source.new }
    {
        let mut searched = 0;
        while !self.take_line(searched) {
            searched = self.held();
            if searched == ROOM {
                return Ok(Found::Long);
            }
            if self.fill(source)? == 0 {
                return Ok(if searched == 0 {
                    Found::End
                } else {
                    Found::Cut
                });
            }
        }
        Ok(Found::Line)
    }

    /// How many bytes are held.
    fn held(&self) -> usize
        ensures count { result ≡ length self.now.held }
        ensures most { result ≤ ROOM }
    {
        self.held.end - self.held.start
    }

    /// Takes the line at the start of what is held, if its line feed is held too. No byte of the first `searched` is
    /// one.
    fn take_line(&mut self, searched: usize) -> bool
        requires within { searched ≤ length self.old.held }
        requires searched { NoFeed (take searched self.old.held) }
        ensures { TakesLine self.old self.new result }
    {
        let Span { start, end } = self.held;
        let from = start + searched;
        match memchr(b'\n', &self.room[from..end]) {
            Some(count) => {
                self.line = Span {
                    start,
                    end: from + count,
                };
                self.held.start = from + count + 1;
                true
            }
            None => {
                self.line = Span { start, end: start };
                false
            }
        }
    }

    /// Reads a piece after what is held, and answers how many bytes came.
    fn fill<S: Source>(&mut self, source: &mut S) -> Result<usize, Failed>
        requires room { length self.old.held < ROOM }
        requires no_line { self.old.line ≡ [] }
        ensures fills { FillsOrNot self.old self.new (S.left source.old) (S.left source.new) result }
        ensures cause { HasCause (S.faults source.old) (S.faults source.new) result }
        ensures same { S.same source.old source.new }
    {
        self.held = make_room(&mut self.room, self.held);
        let count = read_after(source, &mut self.room, self.held.end)?;
        self.held.end += count;
        Ok(count)
    }
}

/// Where these bytes stand once there is room after them. They are moved only where the room is filled to its end, and
/// [`LineReader::advance`] does that only where they have no line feed. So no byte of a text is moved twice.
fn make_room(room: &mut [u8; ROOM], held: Span) -> Span
    requires span { IsSpan held }
    requires few { held.end - held.start < ROOM }
    ensures span { IsSpan result }
    ensures room { result.end < ROOM }
    ensures size { length room.new ≡ ROOM }
    ensures held { bytes_in result room.new ≡ bytes_in held room.old }
{
    if held.end < ROOM {
        return held;
    }
    room.copy_within(held.start..held.end, 0);
    Span {
        start: 0,
        end: held.end - held.start,
    }
}

/// Reads a piece into the bytes after the first `filled`, and answers how many came.
fn read_after<S: Source>(source: &mut S, room: &mut [u8], filled: usize) -> Result<usize, Failed>
    requires { filled < length room.old }
    ensures length { length room.new ≡ length room.old }
    ensures bound { IfOk result (λ count. filled + count ≤ length room.new) }
    ensures prefix { take filled room.new ≡ take filled room.old }
    ensures bytes { Reads (S.left source.old) (S.left source.new) result (drop filled room.new) }
    ensures cause { HasCause (S.faults source.old) (S.faults source.new) result }
    ensures same { S.same source.old source.new }
{
    source.read(&mut room[filled..])
}
