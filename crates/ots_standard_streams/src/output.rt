//! Standard output that leads into a file.
ghost use Rattle.std.specs.Io.{WritesAtMost};
ghost use Rattle.std.specs.Io.KnownBytes.{WriteAppends};

use ots_real::size_limit;
use std::io::{ErrorKind, Write};
use std::rt::Files;
use std::{fs, io};

/// The file that standard output leads to, as Linux names it.
const OUTPUT: &str = "/proc/self/fd/1";

/// Standard output's descriptor.
const DESCRIPTOR: i32 = 1;

/// The writer of standard output. Where that leads into a file, a write that would begin at
/// [`size_limit`] or past it fails, and the system is not asked: it would end the process by a signal.
#[derive(Drop)]
pub struct StandardOutput<R: Files, W: Write> {
    rt: R,
    writer: W,
}

impl<R: Files, W: Write> StandardOutput<R, W> {
    /// Standard output, to which this writer writes.
    pub fn new(rt: R, writer: W) -> StandardOutput<R, W> {
        StandardOutput { rt, writer }
    }
}

impl<R: Files, W: Write> Write for StandardOutput<R, W> {
    ghost contents = { λ output. W.contents output.writer };

    fn write(&mut self, buf: &[u8]) -> io::Result<usize>
        ensures bound { WritesAtMost result buf.now }
        ensures bytes { WriteAppends (W.contents self.old.writer) (W.contents self.new.writer) result buf.now }
    {
        if is_full(&self.rt) {
            return Err(io::Error::from(ErrorKind::FileTooLarge));
        }
        self.writer.write(buf)
    }

    fn flush(&mut self) -> io::Result<()> {
        self.writer.flush()
    }
}

/// Whether standard output leads into a file that may grow no more.
fn is_full<R: Files>(rt: &R) -> bool {
    let limit = size_limit();
    if limit == u64::MAX {
        return false;
    }
    match fs::metadata(rt, OUTPUT) {
        Ok(file) => file.is_file() && place_after(file.len()) >= limit,
        Err(_) => false,
    }
}

/// Where the next write begins of a file of this length, whether it appends or goes on at its place: the
/// greater of both.
fn place_after(length: u64) -> u64 {
    let place = libc::lseek(DESCRIPTOR, 0, libc::SEEK_CUR);
    length.max(u64::try_from(place).unwrap_or(0))
}
