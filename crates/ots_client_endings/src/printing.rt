//! The text that a command ends with.
ghost use Rattle.std.specs.Prelude.{◌≡◌, ℕ, List, [], ◌∷◌};
ghost use Rattle.ots_base.specs.Cause.{Rose};
ghost use Rattle.ots_client_endings.specs.CarriedOut.{PrintsBoth, PrintsLast};
ghost use Rattle.ots_client_endings.specs.Runs.{Moment, TellsStop};
ghost use Rattle.ots_client_text.specs.Refusal.{refusal_text};
ghost use Rattle.ots_outside.specs.Shelf.{ShelfFaults, ShelfTold};
ghost use Rattle.ots_outputs.specs.Printed.{SinkStays};

use ots_client_text::{Status, put_refusal};
use ots_inputs::{InputError, Stop};
use ots_outputs::{PrintedText, print_whole};
use ots_outside::{Failed, Sink};
use ots_printer::Printer;

/// The line of a refusal over a name.
#[derive(Clone, Copy)]
struct Refusal<'a> {
    name: &'a str,
    status: &'a Status,
}

impl PrintedText for Refusal<'_> {
    ghost use Rattle.std.specs.Prelude.{◌≡◌};
    ghost use Rattle.ots_client_text.specs.Refusal.{refusal_text};

    ghost is_text = { λ t bytes. bytes ≡ refusal_text t.name.now t.status.now };

    fn put<K: Sink>(&self, out: &mut Printer<'_, K>) {
        put_refusal(self.name, self.status, out)
    }
}

/// Prints a text, with which a run ends that has this status; or it ends with a write fault where the sink fails,
/// which has taken a prefix of the text then.
pub fn print<T: PrintedText, K: Sink>(text: &T, status: Status, out: &mut K) -> Status
    ensures printed { (bytes : List ℕ) × T.is_text text.now bytes
        × PrintsLast (Rose (K.faults out.old) (K.faults out.new)) status bytes (K.taken out.old) (K.taken out.new)
        result }
    ensures sink { SinkStays K.faults K.same out.old out.new }
{
    match print_whole(text, out) {
        Ok(()) => status,
        Err(Failed) => Status::WriteFault,
    }
}

/// Prints the line of a refusal over a name.
pub fn refuse<K: Sink>(name: &str, status: Status, out: &mut K) -> Status
    ensures printed { PrintsLast (Rose (K.faults out.old) (K.faults out.new)) status (refusal_text name.now status)
        (K.taken out.old) (K.taken out.new) result }
    ensures sink { SinkStays K.faults K.same out.old out.new }
{
    let line = Refusal {
        name,
        status: &status,
    };
    match print_whole(&line, out) {
        Ok(()) => status,
        Err(Failed) => Status::WriteFault,
    }
}

/// Prints a text, and then the line of a refusal over a name.
pub fn refuse_after<T: PrintedText, K: Sink>(
    text: &T,
    name: &str,
    status: Status,
    out: &mut K,
) -> Status
    ensures printed { (bytes : List ℕ) × T.is_text text.now bytes
        × PrintsBoth (Rose (K.faults out.old) (K.faults out.new)) status bytes (refusal_text name.now status)
        (K.taken out.old) (K.taken out.new) result }
    ensures sink { SinkStays K.faults K.same out.old out.new }
{
    match print_whole(text, out) {
        Ok(()) => refuse(name, status, out),
        Err(Failed) => Status::WriteFault,
    }
}

/// Prints why a name could not be read; but where memory ran out, nothing.
pub fn refuse_stop<K: Sink>(stop: Stop<'_, Status>, out: &mut K) -> Status
    ensures told { (shelf : ShelfTold) (faults : ShelfFaults) → TellsStop stop.entry.name.now stop.entry.why
        (record { shelf = shelf; faults = faults; taken = K.taken out.old; lost = K.faults out.old })
        (record { shelf = shelf; faults = faults; taken = K.taken out.new; lost = K.faults out.new }) result }
    ensures sink { SinkStays K.faults K.same out.old out.new }
{
    let Stop { name, why } = stop;
    match why {
        InputError::NoFile => refuse(name, Status::NoFile, out),
        InputError::ReadFault => refuse(name, Status::ReadFault, out),
        InputError::Refused(status) => refuse(name, status, out),
        InputError::OutOfMemory => Status::OutOfMemory,
    }
}
