ghost use Rattle.std.specs.Prelude.{◌≡◌, ◌<◌, length, IfOk};
ghost use Rattle.std.specs.Io.{WritesAtMost};
ghost use Rattle.std.specs.Io.KnownBytes.{WriteAppends};
ghost use Rattle.ots_base.specs.Cause.{HasCause};
ghost use Rattle.ots_real.specs.Counting.{count_after};
ghost use Rattle.ots_real.specs.StdStreams.{writer_of, write_faults};

use crate::counted::write_counted;
use ots_outside::{Count, Failed, Sink};
use std::io::Write;

/// Any writer of std. It tells nothing, and counts as a fault each error of its writer, and each
/// write of a piece that isn't empty which takes nothing of it. A write that a signal cut short is
/// made again.
///
/// What a writer that knows its bytes holds is `W.contents` of the writer, which no clause of
/// `Sink` speaks of: a clause of `write` here says what became of it.
#[derive(Drop)]
pub struct StdSink<W: Write> {
    inner: W,
    faults: Count,
}

impl<W: Write> StdSink<W> {
    /// A sink that writes to this writer.
    pub fn new(inner: W) -> StdSink<W>
        ensures writer { writer_of result ≡ inner }
        ensures faults { write_faults result ≡ 0 }
    {
        StdSink {
            inner,
            faults: Count::new(),
        }
    }
}

impl<W: Write> Sink for StdSink<W> {
    ghost use Rattle.std.specs.Prelude.{None};
    ghost use Rattle.ots_real.specs.StdStreams.{writer_of, write_faults};

    ghost taken = { λ s. None };

    ghost faults = { write_faults };

    ghost same = { λ s t. Unit {0} };

    ghost same_refl = { λ s. tt };

    ghost same_trans = { λ s t u first second. tt };

    fn write(&mut self, piece: &[u8]) -> Result<usize, Failed>
        ensures bound { WritesAtMost result piece.now }
        ensures some { 0 < length piece.now → IfOk result (λ count. 0 < count) }
        ensures writer { WriteAppends (W.contents (writer_of self.old)) (W.contents (writer_of self.new)) result
            piece.now }
        ensures cause { HasCause (write_faults self.old) (write_faults self.new) result }
        ensures counted { write_faults self.new ≡ count_after (write_faults self.old) result }
    {
        write_counted(&mut self.inner, &mut self.faults, piece)
    }
}
