ghost use Rattle.std.specs.Prelude.{◌≡◌, None, Some};
ghost use Rattle.std.specs.Io.{ReadsAtMost, WritesAtMost};
ghost use Rattle.std.specs.Io.KnownBytes.{ReadConsumes, WriteAppends};
ghost use Rattle.ots_real.specs.Sockets.{inner_reads, inner_stream, inner_writes, open_bytes, KeepsTime};

use crate::conversation::{DRAIN_BYTES, DRAIN_SECONDS, WAIT_SECONDS};
use crate::time_limit::TimeLimit;
use std::io;
use std::io::{ErrorKind, Read, Write};
use std::net::{OpenStream, Shutdown};
use std::time::{Clock, Duration};

/// How many bytes are dropped at once: mostly there are none.
const DRAIN_PIECE: usize = 512;

/// A stream of a conversation each way of which is to end in time. A call waits for its peer at most
/// [`WAIT_SECONDS`](crate::conversation::WAIT_SECONDS), and no longer than what is left of its way's
/// limit, or a tenth of that limit more, which saves calls of the system. A call that waited so long
/// is [cut short](is_cut_short), and may be made again. Where nothing is left it is `TimedOut` at once,
/// and the system isn't asked, but by a read where [`Late`] says so.
///
/// Once it is closed each call is `NotConnected`.
#[derive(Drop)]
pub struct TimedStream<C: Clock, S: Read + Write + OpenStream> {
    clock: C,
    stream: Option<S>,
    reads: TimeLimit,
    writes: TimeLimit,
    late: Late,
}

/// What a read does after its time limit.
#[derive(Clone, Copy)]
pub enum Late {
    /// It fails.
    Fails,
    /// It takes what has come, and fails only where it would wait: what was sent in time is read, also
    /// where this process was busy with others till then.
    TakesWhatCame,
}

/// A stream to which nothing more is written, and of which what still comes is to be dropped.
#[derive(Drop)]
pub struct Ending<S> {
    stream: S,
    reads: TimeLimit,
}

impl<C: Clock, S: Read + Write + OpenStream + Drop> TimedStream<C, S> {
    /// A stream whose reads and writes have these limits.
    pub fn new(
        clock: C,
        stream: S,
        reads: TimeLimit,
        writes: TimeLimit,
        late: Late,
    ) -> TimedStream<C, S>
        ensures stream { inner_stream result ≡ Some stream }
        ensures reads { inner_reads result ≡ reads }
        ensures writes { inner_writes result ≡ writes }
    {
        TimedStream {
            clock,
            stream: Some(stream),
            reads,
            writes,
            late,
        }
    }

    pub fn clock(&self) -> &C {
        &self.clock
    }

    /// Closes the stream.
    pub fn close(&mut self)
        ensures closed { inner_stream self.new ≡ None }
        ensures reads { inner_reads self.new ≡ inner_reads self.old }
        ensures writes { inner_writes self.new ≡ inner_writes self.old }
    {
        self.stream = None;
    }

    /// Says that nothing more is written, and gives the stream out, for what the peer still sends to be
    /// dropped within [`DRAIN_SECONDS`] of now. An error is dropped, since the peer that it comes of is
    /// gone; the stream is closed then.
    pub fn end(&mut self) -> Option<Ending<S>>
        ensures closed { inner_stream self.new ≡ None }
        ensures reads { inner_reads self.new ≡ inner_reads self.old }
        ensures writes { inner_writes self.new ≡ inner_writes self.old }
    {
        let stream = self.stream.take()?;
        if stream.shutdown(Shutdown::Write).is_err() {
            return None;
        }
        let mut reads = self.reads.renewed(Duration::from_secs(DRAIN_SECONDS));
        match reads.begin(&self.clock) {
            Ok(()) => Some(Ending { stream, reads }),
            Err(_) => None,
        }
    }
}

impl<S: Read + Write + OpenStream + Drop> Ending<S> {
    /// Reads and drops what the peer still sends, within the time that is left, and closes the stream.
    pub fn drain<C: Clock>(self, clock: &C) {
        let late = Late::TakesWhatCame;
        drain(&mut TimedStream::new(clock, self.stream, self.reads, self.reads, late));
    }
}

/// Reads what has come, and fails where that is nothing.
fn read_what_came<S: Read + OpenStream>(stream: &mut S, buf: &mut [u8]) -> io::Result<usize>
    ensures bound { ReadsAtMost result buf.new }
    ensures bytes { ReadConsumes (S.remaining stream.old) (S.remaining stream.new) result buf.new }
{
    stream.set_nonblocking(true)?;
    let answer = match stream.read(buf) {
        Err(error) if is_cut_short(&error) => Err(io::Error::from(ErrorKind::TimedOut)),
        answer => answer,
    };
    // Writes wait again. Where that can't be set, they are made again till their own limit.
    let _ = stream.set_nonblocking(false);
    answer
}

/// Whether a call ended before its peer did anything, by a signal or since it waited as long as the
/// socket's timeout lets it. It is to be made again, with what is left of its limit.
pub fn is_cut_short(error: &io::Error) -> bool {
    matches!(error.kind(), ErrorKind::Interrupted | ErrorKind::WouldBlock)
}

/// Reads and drops what a reader still gives, at most [`DRAIN_BYTES`]. A socket that is closed with
/// bytes unread sends its peer a reset, at which the peer may lose a reply that it has not read yet
/// (RFC 9112 section 9.6).
fn drain<R: Read>(reader: &mut R) {
    let mut dropped = [0; DRAIN_PIECE];
    let mut left = DRAIN_BYTES;
    for _ in 0..DRAIN_BYTES {
        match reader.read(&mut dropped[..left.min(DRAIN_PIECE)]) {
            Ok(more) if more > 0 => left -= more,
            Err(error) if is_cut_short(&error) => {}
            _ => return,
        }
    }
}

impl<C: Clock, S: Read + Write + OpenStream> Read for TimedStream<C, S> {
    ghost use Rattle.ots_real.specs.Sockets.{inner_stream, open_bytes};

    ghost remaining = { λ s. open_bytes S.remaining (inner_stream s) };

    fn read(&mut self, buf: &mut [u8]) -> io::Result<usize>
        ensures bound { ReadsAtMost result buf.new }
        ensures bytes { ReadConsumes (open_bytes S.remaining (inner_stream self.old))
            (open_bytes S.remaining (inner_stream self.new)) result buf.new }
        ensures time { KeepsTime (inner_stream self.old) (inner_stream self.new) (inner_reads self.old)
            (inner_reads self.new) (inner_writes self.old) (inner_writes self.new) result }
    {
        let Some(stream) = &mut self.stream else {
            return Err(io::Error::from(ErrorKind::NotConnected));
        };
        match (self.reads.new_timeout(&self.clock), self.late) {
            (Ok(None), _) => {}
            (Ok(Some(timeout)), _) => {
                stream.set_read_timeout(Some(timeout))?;
                self.reads.set_timeout(timeout);
            }
            (Err(error), Late::TakesWhatCame)
                if error.kind() == ErrorKind::TimedOut && self.reads.has_begun() => {
                if !self.reads.has_timeout() {
                    let timeout = Duration::from_secs(WAIT_SECONDS);
                    stream.set_read_timeout(Some(timeout))?;
                    self.reads.set_timeout(timeout);
                }
                return read_what_came(stream, buf);
            }
            (Err(error), _) => return Err(error),
        }
        stream.read(buf)
    }
}

impl<C: Clock, S: Read + Write + OpenStream> Write for TimedStream<C, S> {
    ghost use Rattle.ots_real.specs.Sockets.{inner_stream, open_bytes};

    ghost contents = { λ s. open_bytes S.contents (inner_stream s) };

    fn write(&mut self, piece: &[u8]) -> io::Result<usize>
        ensures bound { WritesAtMost result piece.now }
        ensures bytes { WriteAppends (open_bytes S.contents (inner_stream self.old))
            (open_bytes S.contents (inner_stream self.new)) result piece.now }
        ensures time { KeepsTime (inner_stream self.old) (inner_stream self.new) (inner_writes self.old)
            (inner_writes self.new) (inner_reads self.old) (inner_reads self.new) result }
    {
        let Some(stream) = &mut self.stream else {
            return Err(io::Error::from(ErrorKind::NotConnected));
        };
        if let Some(timeout) = self.writes.new_timeout(&self.clock)? {
            stream.set_write_timeout(Some(timeout))?;
            self.writes.set_timeout(timeout);
        }
        stream.write(piece)
    }

    fn flush(&mut self) -> io::Result<()> {
        match &mut self.stream {
            Some(stream) => stream.flush(),
            None => Err(io::Error::from(ErrorKind::NotConnected)),
        }
    }
}
