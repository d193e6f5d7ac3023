//! Making one file.
ghost use Rattle.std.specs.Prelude.{◌≡◌, ℕ, List, OnOk};
ghost use Rattle.ots_base.specs.Cause.{HasCause};
ghost use Rattle.ots_outside.specs.Streams.{Takes, TakesPrefix};
ghost use Rattle.ots_outputs.specs.Made.{MakesFile, not_created};

use ots_outside::{CreateError, Failed, Shelf, Sink, SlotSink};

/// Why a file was not made.
#[derive(Clone, Copy, Debug, PartialEq, Eq)]
pub enum OutputError {
    /// The shelf has the name already.
    Exists,
    /// The shelf counted a fault while the name was created or written. Where it was created, it
    /// holds a prefix of the file.
    WriteFault,
    /// Memory ran out, and no name was created.
    OutOfMemory,
}

impl From<CreateError> for OutputError {
    ghost from_gives = { λ e r. r ≡ not_created e };

    fn from(error: CreateError) -> Self {
        match error {
            CreateError::Exists => OutputError::Exists,
            CreateError::Failed => OutputError::WriteFault,
            CreateError::OutOfMemory => OutputError::OutOfMemory,
        }
    }
}

/// What a file is to hold.
pub trait Contents {
    /// Its bytes.
    ghost bytes: { Self → List ℕ };

    /// Writes all of its bytes, or a prefix of them where a write fails. It takes no memory.
    fn write_to<K: Sink>(&self, sink: &mut K) -> Result<(), Failed>
        ensures whole { OnOk result (Takes (K.taken sink.old) (K.taken sink.new) (bytes self.now)) }
        ensures prefix { TakesPrefix (K.taken sink.old) (K.taken sink.new) (bytes self.now) }
        ensures cause { HasCause (K.faults sink.old) (K.faults sink.new) result }
        ensures same { K.same sink.old sink.new };
}

/// Creates a name that holds these contents. All that the shelf tells of other names and of slots
/// stays.
pub fn make_file<C: Contents, S: Shelf>(
    name: &str,
    contents: &C,
    shelf: &mut S,
) -> Result<(), OutputError>
    ensures { MakesFile name.now (C.bytes contents.now) (S.told shelf.old) (S.told shelf.new) (S.faults shelf.old)
        (S.faults shelf.new) result }
{
    let slot = shelf.create(name)?;
    let written = contents.write_to(&mut SlotSink::new(shelf, slot));
    shelf.close(slot);
    match written {
        Ok(()) => Ok(()),
        Err(Failed) => Err(OutputError::WriteFault),
    }
}
