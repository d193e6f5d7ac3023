ghost use Rattle.std.specs.Prelude.{◌≡◌, ◌<◌, length, IfOk, None, Some};
ghost use Rattle.std.specs.Io.{ReadsAtMost, WritesAtMost};
ghost use Rattle.std.specs.Io.KnownBytes.{ReadConsumes, WriteAppends};
ghost use Rattle.ots_base.specs.Cause.{HasCause};
ghost use Rattle.ots_real.specs.Counting.{count_after};
ghost use Rattle.ots_real.specs.Sockets.{link_faults, link_stream, open_bytes, read_limit, write_limit, KeepsTime};

use crate::TimeLimit;
use crate::timed_stream::{Ending, Late, TimedStream, is_cut_short};
use ots_outside::{Count, Failed, Link};
use std::io::{Read, Write};
use std::net::OpenStream;
use std::time::Clock;

/// One connection. It tells nothing of its bytes, and counts each fault: an error of the system, a
/// write that takes nothing of a piece that isn't empty, each call after the time limit of its way,
/// and each call once the link is finished. A fault, as a reset by the peer, is one of this link
/// alone.
///
/// Its reads have a time limit, and its writes one: the first read begins the one and the first
/// write the other, where they had not begun before. What happens between these calls, as a wait
/// for other work of this process, counts to a limit only once that has begun. A peer that sends or
/// takes nothing is cut off at most a tenth of the limit, and at most a second, after its end. A link
/// that was accepted still reads after its limit what has come by then, and waits for nothing.
///
/// `finish` says that nothing more is written. So that no reset takes a reply that the peer hasn't read
/// yet, what the peer still sends is read and dropped, up to its end, [`DRAIN_BYTES`](crate::DRAIN_BYTES)
/// or [`DRAIN_SECONDS`](crate::DRAIN_SECONDS) after that, and then the connection is closed: at once, or
/// when the link is given back, so that many links have these seconds together. A link that counts a
/// fault is closed at once.
///
/// What a stream that knows its bytes has left and holds is `S.remaining` and `S.contents` of the
/// stream: clauses of `read` and `write` here say what became of them.
#[derive(Drop)]
pub struct TcpLink<C: Clock, S: Read + Write + OpenStream> {
    stream: TimedStream<C, S>,
    drained: Drained,
    ending: Option<Ending<S>>,
    faults: Count,
}

/// When what a finished peer still sends is read and dropped.
#[derive(Clone, Copy)]
pub enum Drained {
    /// By `finish`.
    AtOnce,
    /// When the link is given back.
    WhenGivenBack,
}

impl<C: Clock, S: Read + Write + OpenStream + Drop> TcpLink<C, S> {
    /// A link that was called, whose reads and writes have these limits by this clock.
    pub fn new(clock: C, stream: S, reads: TimeLimit, writes: TimeLimit) -> TcpLink<C, S>
        ensures stream { link_stream result ≡ Some stream }
        ensures faults { link_faults result ≡ 0 }
        ensures reads { read_limit result ≡ reads }
        ensures writes { write_limit result ≡ writes }
    {
        TcpLink {
            stream: TimedStream::new(clock, stream, reads, writes, Late::Fails),
            drained: Drained::AtOnce,
            ending: None,
            faults: Count::new(),
        }
    }

    /// The same of a link that was accepted.
    pub fn accepted(
        clock: C,
        stream: S,
        reads: TimeLimit,
        writes: TimeLimit,
        drained: Drained,
    ) -> TcpLink<C, S>
        ensures stream { link_stream result ≡ Some stream }
        ensures faults { link_faults result ≡ 0 }
        ensures reads { read_limit result ≡ reads }
        ensures writes { write_limit result ≡ writes }
    {
        TcpLink {
            stream: TimedStream::new(clock, stream, reads, writes, Late::TakesWhatCame),
            drained,
            ending: None,
            faults: Count::new(),
        }
    }
}

impl<C: Clock + Copy, S: Read + Write + OpenStream + Drop> TcpLink<C, S> {
    /// Drops what the peer still sends, where `finish` left that for now, and closes the connection.
    pub fn drain(self, clock: C) {
        let TcpLink { ending, .. } = self;
        if let Some(ending) = ending {
            ending.drain(&clock);
        }
    }
}

impl<C: Clock, S: Read + Write + OpenStream + Drop> Link for TcpLink<C, S> {
    ghost use Rattle.std.specs.Prelude.{None};
    ghost use Rattle.ots_real.specs.Sockets.{link_faults};

    ghost told = { λ link. None };

    ghost faults = { link_faults };

    ghost same = { λ s t. Unit {0} };

    ghost same_refl = { λ s. tt };

    ghost same_trans = { λ s t u first second. tt };

    #[tactic(auto, using(crate::proofs::Time::times))]
    fn read(&mut self, buf: &mut [u8]) -> Result<usize, Failed>
        ensures bound { ReadsAtMost result buf.new }
        ensures stream { ReadConsumes (open_bytes S.remaining (link_stream self.old))
            (open_bytes S.remaining (link_stream self.new)) result buf.new }
        ensures time { KeepsTime (link_stream self.old) (link_stream self.new) (read_limit self.old)
            (read_limit self.new) (write_limit self.old) (write_limit self.new) result }
        ensures cause { HasCause (link_faults self.old) (link_faults self.new) result }
        ensures counted { link_faults self.new ≡ count_after (link_faults self.old) result }
    {
        // A call that was cut short is made again, with what is left of its limit.
        for _ in 0..u64::MAX {
            match self.stream.read(buf) {
                Ok(count) => return Ok(count),
                Err(error) if is_cut_short(&error) => {}
                Err(_) => break,
            }
        }
        self.faults.rise();
        Err(Failed)
    }

    #[tactic(auto, using(crate::proofs::Time::times))]
    fn write(&mut self, piece: &[u8]) -> Result<usize, Failed>
        ensures bound { WritesAtMost result piece.now }
        ensures some { 0 < length piece.now → IfOk result (λ count. 0 < count) }
        ensures stream { WriteAppends (open_bytes S.contents (link_stream self.old))
            (open_bytes S.contents (link_stream self.new)) result piece.now }
        ensures time { KeepsTime (link_stream self.old) (link_stream self.new) (write_limit self.old)
            (write_limit self.new) (read_limit self.old) (read_limit self.new) result }
        ensures cause { HasCause (link_faults self.old) (link_faults self.new) result }
        ensures counted { link_faults self.new ≡ count_after (link_faults self.old) result }
    {
        for _ in 0..u64::MAX {
            match self.stream.write(piece) {
                Ok(count) if count > 0 || piece.is_empty() => return Ok(count),
                Err(error) if is_cut_short(&error) => {}
                _ => break,
            }
        }
        self.faults.rise();
        Err(Failed)
    }

    fn finish(&mut self)
        ensures closed { link_stream self.new ≡ None }
        ensures faults { link_faults self.new ≡ link_faults self.old }
        ensures reads { read_limit self.new ≡ read_limit self.old }
        ensures writes { write_limit self.new ≡ write_limit self.old }
    {
        if self.faults.value() != 0 {
            self.stream.close();
            return;
        }
        let Some(ending) = self.stream.end() else {
            return;
        };
        match self.drained {
            Drained::AtOnce => ending.drain(self.stream.clock()),
            Drained::WhenGivenBack => self.ending = Some(ending),
        }
    }
}
