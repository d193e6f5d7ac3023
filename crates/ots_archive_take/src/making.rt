//! Making the proofs.
ghost use Rattle.ots_archive_take.specs.Making.{MakesNamed, MakesProof, TellsMade, TellsRefused, TellsSame};
ghost use Rattle.ots_detached.specs.File.{file_of};

use ots_archive_steps::{make, tell, tell_refusal};
use ots_archive_text::{ArchiveStatus, put_made, put_same};
use ots_archive_world::World;
use ots_detached::write_file;
use ots_outputs::{Contents, PrintedText};
use ots_outside::{Failed, Sink};
use ots_printer::Printer;
use ots_tree::{Detached, WriteFault};

/// The file of a proof.
#[derive(Clone, Copy)]
struct ProofFile<'a>(&'a Detached);

impl Contents for ProofFile<'_> {
    ghost use Rattle.ots_detached.specs.File.{file_of};

    ghost bytes = { λ f. file_of f.0.now };

    fn write_to<K: Sink>(&self, sink: &mut K) -> Result<(), Failed> {
        match write_file(self.0, sink) {
            Ok(()) => Ok(()),
            Err(WriteFault) => Err(Failed),
        }
    }
}

/// The line of a proof that was made.
#[derive(Clone, Copy)]
struct MadeLine<'a> {
    name: &'a [u8],
    complete: bool,
}

impl PrintedText for MadeLine<'_> {
    ghost use Rattle.std.specs.Prelude.{◌≡◌};
    ghost use Rattle.ots_archive_text.specs.Lines.{made_text};

    ghost is_text = { λ t bytes. bytes ≡ made_text t.name.now t.complete };

    fn put<K: Sink>(&self, out: &mut Printer<'_, K>) {
        put_made(self.name, self.complete, out)
    }
}

/// The line of a proof to which no path came.
#[derive(Clone, Copy)]
struct SameLine<'a> {
    name: &'a [u8],
    complete: bool,
}

impl PrintedText for SameLine<'_> {
    ghost use Rattle.std.specs.Prelude.{◌≡◌};
    ghost use Rattle.ots_archive_text.specs.Lines.{same_text};

    ghost is_text = { λ t bytes. bytes ≡ same_text t.name.now t.complete };

    fn put<K: Sink>(&self, out: &mut Printer<'_, K>) {
        put_same(self.name, self.complete, out)
    }
}

/// Tells that no path came to a proof, and gives its status.
pub fn tell_same<W: World>(
    name: &[u8],
    complete: bool,
    status: ArchiveStatus,
    world: &mut W,
) -> Result<ArchiveStatus, ArchiveStatus>
    ensures { TellsSame name.now complete status (W.told world.old) (W.told world.new) result }
{
    match tell(&SameLine { name, complete }, world) {
        Ok(()) => Ok(status),
        Err(failed) => Err(failed),
    }
}

/// Tells why no proof is made, and gives that as its status.
pub fn tell_refused<W: World>(
    name: &[u8],
    status: ArchiveStatus,
    world: &mut W,
) -> Result<ArchiveStatus, ArchiveStatus>
    ensures { TellsRefused name.now status (W.told world.old) (W.told world.new) result }
{
    match tell_refusal(name, &status, world) {
        Ok(()) => Ok(status),
        Err(failed) => Err(failed),
    }
}

/// Makes the file of a proof under a name, and gives the proof's status; or that the name is there, which stays. Each is
/// told.
///
/// A name that isn't UTF-8 is that of no file, and is refused.
pub fn make_proof<W: World>(
    name: &[u8],
    proof: &Detached,
    complete: bool,
    status: ArchiveStatus,
    world: &mut W,
) -> Result<ArchiveStatus, ArchiveStatus>
    ensures { MakesProof name.now (file_of proof.now) complete status (W.told world.old) (W.told world.new) result }
{
    match str::from_utf8(name) {
        Ok(text) => make_named(text, proof, complete, status, world),
        Err(_) => tell_refused(name, ArchiveStatus::BadName, world),
    }
}

/// The same under a name of UTF-8.
fn make_named<W: World>(
    name: &str,
    proof: &Detached,
    complete: bool,
    status: ArchiveStatus,
    world: &mut W,
) -> Result<ArchiveStatus, ArchiveStatus>
    ensures { MakesNamed name.now (file_of proof.now) complete status (W.told world.old) (W.told world.new) result }
{
    match make(name, &ProofFile(proof), world) {
        Ok(made) => tell_made(name, made, complete, status, world),
        Err(failed) => Err(failed),
    }
}

/// Tells whether the file of a proof was made, and gives the status.
fn tell_made<W: World>(
    name: &str,
    made: bool,
    complete: bool,
    status: ArchiveStatus,
    world: &mut W,
) -> Result<ArchiveStatus, ArchiveStatus>
    ensures { TellsMade name.now complete status made (W.told world.old) (W.told world.new) result }
{
    if !made {
        return tell_refused(name.as_bytes(), ArchiveStatus::Exists, world);
    }
    let line = MadeLine {
        name: name.as_bytes(),
        complete,
    };
    match tell(&line, world) {
        Ok(()) => Ok(status),
        Err(failed) => Err(failed),
    }
}
