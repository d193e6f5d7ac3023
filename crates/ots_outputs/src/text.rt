//! Printing a text that is put piece by piece.
ghost use Rattle.std.specs.Prelude.{◌≡◌, ℕ, List, [], false};
ghost use Rattle.ots_base.specs.Cause.{Rose};
ghost use Rattle.ots_printer.specs.Printing.{Puts};
ghost use Rattle.ots_outputs.specs.Printed.{Prints, SinkStays};

use ots_outside::{Failed, Sink};
use ots_printer::Printer;

/// A text that is put piece by piece.
pub trait PrintedText {
    /// Which bytes it is.
    ghost is_text: { Self → List ℕ → Type 0 };

    /// Puts all of it.
    fn put<K: Sink>(&self, out: &mut Printer<'_, K>)
        ensures loan { out.new.sink.ghost_name ≡ out.old.sink.ghost_name }
        ensures put { (text : List ℕ) × is_text self.now text × Puts K.taken K.faults K.same text out.old out.new };
}

/// Prints a text, or a prefix of it where the sink fails.
pub fn print_whole<T: PrintedText, K: Sink>(text: &T, sink: &mut K) -> Result<(), Failed>
    ensures printed { Prints (T.is_text text.now) (Rose (K.faults sink.old) (K.faults sink.new))
        (K.taken sink.old) (K.taken sink.new) result }
    ensures sink { SinkStays K.faults K.same sink.old sink.new }
{
    put_whole(text, &mut Printer::new(sink))
}

/// Puts a text on a new printer, and finishes it.
fn put_whole<T: PrintedText, K: Sink>(text: &T, out: &mut Printer<'_, K>) -> Result<(), Failed>
    requires empty { out.old.held ≡ [] }
    requires good { out.old.failed ≡ false }
    ensures loan { out.new.sink.ghost_name ≡ out.old.sink.ghost_name }
    ensures printed { Prints (T.is_text text.now) (Rose (K.faults out.old.sink.now) (K.faults out.new.sink.now))
        (K.taken out.old.sink.now) (K.taken out.new.sink.now) result }
    ensures sink { SinkStays K.faults K.same out.old.sink.now out.new.sink.now }
{
    text.put(out);
    match out.finish() {
        Ok(()) => Ok(()),
        Err(Failed) => Err(Failed),
    }
}
