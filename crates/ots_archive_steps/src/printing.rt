//! Printing.
ghost use Rattle.ots_archive_steps.specs.Printing.{Refuses, Says, Tells, TellsRefusal};

use ots_archive_text::{ArchiveStatus, put_refusal};
use ots_archive_world::World;
use ots_outputs::PrintedText;
use ots_outside::{Failed, Sink};
use ots_printer::Printer;

/// The line of a refusal over a name.
#[derive(Clone, Copy)]
struct Refusal<'a> {
    name: &'a [u8],
    status: &'a ArchiveStatus,
}

impl PrintedText for Refusal<'_> {
    ghost use Rattle.std.specs.Prelude.{◌≡◌};
    ghost use Rattle.ots_archive_text.specs.Refusal.{refusal_text};

    ghost is_text = { λ t bytes. bytes ≡ refusal_text t.name.now t.status.now };

    fn put<K: Sink>(&self, out: &mut Printer<'_, K>) {
        put_refusal(self.name, self.status, out)
    }
}

/// Prints a text, with which the run goes on.
///
/// `WriteFault` comes where the sink fails, and has taken a prefix of the text: the run ends with it.
pub fn tell<T: PrintedText, W: World>(text: &T, world: &mut W) -> Result<(), ArchiveStatus>
    ensures { Tells (T.is_text text.now) (W.told world.old) (W.told world.new) result }
{
    match world.print(text) {
        Ok(()) => Ok(()),
        Err(Failed) => Err(ArchiveStatus::WriteFault),
    }
}

/// Prints a text, with which the run ends: with this status, or with `WriteFault` where the sink fails.
pub fn say<T: PrintedText, W: World>(
    text: &T,
    status: ArchiveStatus,
    world: &mut W,
) -> ArchiveStatus
    ensures { Says (T.is_text text.now) status (W.told world.old) (W.told world.new) result }
{
    match world.print(text) {
        Ok(()) => status,
        Err(Failed) => ArchiveStatus::WriteFault,
    }
}

/// Prints the line of a refusal over a name, with which the run ends.
pub fn refuse<W: World>(name: &[u8], status: ArchiveStatus, world: &mut W) -> ArchiveStatus
    ensures { Refuses name.now status (W.told world.old) (W.told world.new) result }
{
    let line = Refusal {
        name,
        status: &status,
    };
    say(&line, status, world)
}

/// Prints the line of a refusal over a name, with which the run goes on.
pub fn tell_refusal<W: World>(
    name: &[u8],
    status: &ArchiveStatus,
    world: &mut W,
) -> Result<(), ArchiveStatus>
    ensures { TellsRefusal name.now status.now (W.told world.old) (W.told world.new) result }
{
    tell(&Refusal { name, status }, world)
}
