//! A connection of which some bytes were read before it was handed out.
ghost use Rattle.std.specs.Io.{ReadsAtMost};
ghost use Rattle.std.specs.Io.KnownBytes.{ReadConsumes};
ghost use Rattle.ots_real.specs.Ahead.{ahead_contents, ahead_remaining, HasAhead};

use std::io;
use std::io::{Cursor, Read, Write};
use std::net::{OpenStream, Shutdown};
use std::time::Duration;

/// A stream and the bytes that were read of it already, which its reads give first.
#[derive(Drop)]
pub struct Ahead<S> {
    bytes: Cursor<Vec<u8>>,
    stream: S,
}

impl<S> Ahead<S> {
    /// A stream of which these bytes were read.
    pub fn new(bytes: Vec<u8>, stream: S) -> Ahead<S>
        ensures remaining { HasAhead bytes.items stream result }
    {
        Ahead {
            bytes: Cursor::new(bytes),
            stream,
        }
    }
}

impl<S: Read> Read for Ahead<S> {
    ghost use Rattle.ots_real.specs.Ahead.{ahead_remaining};

    ghost remaining = { ahead_remaining S.remaining };

    fn read(&mut self, buf: &mut [u8]) -> io::Result<usize>
        ensures bound { ReadsAtMost result buf.new }
        ensures bytes { ReadConsumes (ahead_remaining S.remaining self.old) (ahead_remaining S.remaining self.new)
            result buf.new }
    {
        let count = self.bytes.read(buf)?;
        if count > 0 || buf.is_empty() {
            return Ok(count);
        }
        self.stream.read(buf)
    }
}

impl<S: Write> Write for Ahead<S> {
    ghost use Rattle.ots_real.specs.Ahead.{ahead_contents};

    ghost contents = { ahead_contents S.contents };

    fn write(&mut self, piece: &[u8]) -> io::Result<usize> {
        self.stream.write(piece)
    }

    fn flush(&mut self) -> io::Result<()> {
        self.stream.flush()
    }
}

impl<S: OpenStream> OpenStream for Ahead<S> {
    fn shutdown(&self, how: Shutdown) -> io::Result<()> {
        self.stream.shutdown(how)
    }

    fn set_nonblocking(&self, nonblocking: bool) -> io::Result<()> {
        self.stream.set_nonblocking(nonblocking)
    }

    fn set_read_timeout(&self, timeout: Option<Duration>) -> io::Result<()> {
        self.stream.set_read_timeout(timeout)
    }

    fn set_write_timeout(&self, timeout: Option<Duration>) -> io::Result<()> {
        self.stream.set_write_timeout(timeout)
    }

    fn read_timeout(&self) -> io::Result<Option<Duration>> {
        self.stream.read_timeout()
    }

    fn write_timeout(&self) -> io::Result<Option<Duration>> {
        self.stream.write_timeout()
    }
}
