ghost use Rattle.std.specs.Prelude.{◌≡◌};
ghost use Rattle.std.specs.Io.{ReadsAtMost};
ghost use Rattle.std.specs.Io.KnownBytes.{ReadConsumes};
ghost use Rattle.ots_base.specs.Cause.{HasCause};
ghost use Rattle.ots_real.specs.Counting.{count_after};
ghost use Rattle.ots_real.specs.StdStreams.{reader_of, read_faults};

use crate::counted::read_counted;
use ots_outside::{Count, Failed, Source};
use std::io::Read;

/// Any reader of std. It tells nothing, and counts each error of its reader as a fault. A read
/// that a signal cut short is made again.
///
/// What a reader that knows its bytes has left is `R.remaining` of the reader, which no clause of
/// `Source` speaks of: a clause of `read` here says what became of it.
#[derive(Drop)]
pub struct StdSource<R: Read> {
    inner: R,
    faults: Count,
}

impl<R: Read> StdSource<R> {
    /// A source of what this reader gives.
    pub fn new(inner: R) -> StdSource<R>
        ensures reader { reader_of result ≡ inner }
        ensures faults { read_faults result ≡ 0 }
    {
        StdSource {
            inner,
            faults: Count::new(),
        }
    }
}

impl<R: Read> Source for StdSource<R> {
    ghost use Rattle.std.specs.Prelude.{None};
    ghost use Rattle.ots_real.specs.StdStreams.{reader_of, read_faults};

    ghost left = { λ s. None };

    ghost faults = { read_faults };

    ghost same = { λ s t. Unit {0} };

    ghost same_refl = { λ s. tt };

    ghost same_trans = { λ s t u first second. tt };

    fn read(&mut self, buf: &mut [u8]) -> Result<usize, Failed>
        ensures bound { ReadsAtMost result buf.new }
        ensures reader { ReadConsumes (R.remaining (reader_of self.old)) (R.remaining (reader_of self.new)) result
            buf.new }
        ensures cause { HasCause (read_faults self.old) (read_faults self.new) result }
        ensures counted { read_faults self.new ≡ count_after (read_faults self.old) result }
    {
        read_counted(&mut self.inner, &mut self.faults, buf)
    }
}
