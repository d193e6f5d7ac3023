// Calls that a signal cut short.
ghost use Rattle.std.specs.Prelude.{◌≤◌, IfOk};

use ots_io::{Failed, Sink, Source, StdSink, StdSource};
use std::io;
use std::io::{ErrorKind, Read, Write};
use std::test::Fail;

/// A stream whose calls have these answers in turn: `None` is a call that was cut short, and past
/// the last one each call fails.
#[derive(Drop)]
struct Answers {
    answers: [Option<usize>; 5],
    made: usize,
}

impl Answers {
    fn next(&mut self, most: usize) -> io::Result<usize>
        ensures { IfOk result (λ count. count ≤ most) }
    {
        let answer = self.answers.get(self.made).copied();
        self.made = self.made.saturating_add(1);
        match answer {
            Some(Some(count)) => Ok(count.min(most)),
            Some(None) => Err(io::Error::from(ErrorKind::Interrupted)),
            None => Err(io::Error::from(ErrorKind::Other)),
        }
    }
}

impl Read for Answers {
    fn read(&mut self, buf: &mut [u8]) -> io::Result<usize> {
        self.next(buf.len())
    }
}

impl Write for Answers {
    fn write(&mut self, buf: &[u8]) -> io::Result<usize> {
        self.next(buf.len())
    }

    fn flush(&mut self) -> io::Result<()> {
        Ok(())
    }
}

const ANSWERS: Answers = Answers {
    answers: [None, Some(3), None, None, Some(0)],
    made: 0,
};

/// What three reads answer.
fn read_three<S: Source>(source: &mut S) -> [Result<usize, Failed>; 3] {
    let mut buf = [0; 4];
    [
        source.read(&mut buf),
        source.read(&mut buf),
        source.read(&mut buf),
    ]
}

/// What three writes answer.
fn write_three<S: Sink>(sink: &mut S) -> [Result<usize, Failed>; 3] {
    [
        sink.write(b"abcd"),
        sink.write(b"abcd"),
        sink.write(b"abcd"),
    ]
}

#[test]
fn a_read_that_was_cut_short_is_made_again(rt: HostRuntime) -> Result<(), Fail> {
    let answers = read_three(&mut StdSource::new(ANSWERS));
    // The third call is past the answers and fails, which must not look like the end of input.
    assert_eq!(rt; answers, [Ok(3), Ok(0), Err(Failed)]);
    Ok(())
}

#[test]
fn a_write_that_was_cut_short_is_made_again(rt: HostRuntime) -> Result<(), Fail> {
    let answers = write_three(&mut StdSink::new(ANSWERS));
    // A write that takes nothing fails.
    assert_eq!(rt; answers, [Ok(3), Err(Failed), Err(Failed)]);
    Ok(())
}
