//! The proofs of stamped files are made, one after the other.
ghost use Rattle.std.specs.Prelude.{◌≡◌, ◌<◌, [], ◌∷◌, length, string_bytes, IfOk};
ghost use Rattle.ots_base.specs.Cause.{Rose};
ghost use Rattle.ots_client_endings.specs.CarriedOut.{Carries, CarriesOn};
ghost use Rattle.ots_client_endings.specs.Ending.{IsStampAt, makes, prints};
ghost use Rattle.ots_client_text.specs.Lines.{proof_name, wrote_text};
ghost use Rattle.ots_client_text.specs.declared.status.Status.TheVariants.{Done};
ghost use Rattle.ots_detached.specs.File.{file_of};
ghost use Rattle.ots_outputs.specs.Printed.{SinkStays};
ghost use Rattle.ots_stamp.specs.Stamped.{good_trees};
ghost use Rattle.ots_stamping.specs.Answered.{acts_at, acts_of_stamped, name_at};
ghost use Rattle.ots_stamping.specs.Stamp.{calendars_text};

use crate::replies::{CalendarLines, Stamped};
use ots_base::OutOfMemory;
use ots_client_endings::{is_too_long, make_proof, refuse};
use ots_client_text::{Status, put_wrote};
use ots_detached::written_file;
use ots_outputs::{OutputError, PrintedText, print_whole};
use ots_outside::{Failed, Shelf, Sink};
use ots_printer::Printer;
use ots_tree::Detached;
use std::alloc::Global;

/// That the proof of the file with this name was made.
#[derive(Clone, Copy)]
struct WroteLine<'a>(&'a str);

impl PrintedText for WroteLine<'_> {
    ghost use Rattle.std.specs.Prelude.{◌≡◌};
    ghost use Rattle.ots_client_text.specs.Lines.{wrote_text};

    ghost is_text = { λ t bytes. bytes ≡ wrote_text t.0.now };

    fn put<K: Sink>(&self, out: &mut Printer<'_, K>) {
        put_wrote(self.0, out)
    }
}

/// Tells what came of each calendar, and then makes the proof of each file in order and tells that; or
/// prints why one can't be made.
pub fn make_stamps<S: Shelf, K: Sink>(
    alloc: Global,
    stamped: &Stamped<'_>,
    shelf: &mut S,
    out: &mut K,
) -> Status
    ensures made { Carries Done (prints (calendars_text stamped.now.calendars stamped.now.outcomes)
        ∷ acts_of_stamped stamped.now)
        (S.told shelf.old) (S.told shelf.new) (S.faults shelf.old) (S.faults shelf.new)
        (Rose (K.faults out.old) (K.faults out.new)) (K.taken out.old) (K.taken out.new) result }
    ensures sink { SinkStays K.faults K.same out.old out.new }
{
    match print_whole(&CalendarLines(stamped.replies()), out) {
        Ok(()) => make_each(alloc, stamped, shelf, out),
        Err(Failed) => Status::WriteFault,
    }
}

/// Makes the proof of each file in order and tells that; or prints why one can't be made.
fn make_each<S: Shelf, K: Sink>(
    alloc: Global,
    stamped: &Stamped<'_>,
    shelf: &mut S,
    out: &mut K,
) -> Status
    ensures made { Carries Done (acts_of_stamped stamped.now)
        (S.told shelf.old) (S.told shelf.new) (S.faults shelf.old) (S.faults shelf.new)
        (Rose (K.faults out.old) (K.faults out.new)) (K.taken out.old) (K.taken out.new) result }
    ensures sink { SinkStays K.faults K.same out.old out.new }
{
    for i in 0..stamped.count() {
        match make_stamp(alloc, stamped, i, shelf, out) {
            Ok(()) => {}
            Err(why) => return why,
        }
    }
    Status::Done
}

/// Makes the proof of one of the files and tells that; or prints why it can't be made.
fn make_stamp<S: Shelf, K: Sink>(
    alloc: Global,
    stamped: &Stamped<'_>,
    i: usize,
    shelf: &mut S,
    out: &mut K,
) -> Result<(), Status>
    requires { i < length stamped.now.files }
    ensures made { CarriesOn (acts_at stamped.now i)
        (S.told shelf.old) (S.told shelf.new) (S.faults shelf.old) (S.faults shelf.new)
        (Rose (K.faults out.old) (K.faults out.new)) (K.taken out.old) (K.taken out.new) result }
    ensures sink { SinkStays K.faults K.same out.old out.new }
{
    let name = stamped.name(i);
    let (to, proof) = match proof_of(alloc, stamped, i) {
        Ok(made) => made,
        Err(OutOfMemory) => return Err(Status::OutOfMemory),
    };
    written_file(&proof);
    if is_too_long(&proof) {
        return Err(refuse(&to, Status::TooBig, out));
    }
    make_and_tell(name, &to, &proof, shelf, out)
}

/// The name under which the proof of one of the files is made, and the proof.
fn proof_of(
    alloc: Global,
    stamped: &Stamped<'_>,
    i: usize,
) -> Result<(String, Detached), OutOfMemory>
    requires { i < length stamped.now.files }
    ensures name { IfOk result (λ made. string_bytes made.0 ≡ proof_name (name_at stamped.now i)) }
    ensures proof { IfOk result (λ made. IsStampAt stamped.now.targets (good_trees stamped.now.outcomes) i made.1) }
{
    let to = format!(in alloc; "{}.ots", stamped.name(i))?;
    let proof = stamped.proof(alloc, i)?;
    Ok((to, proof))
}

/// Makes the file of a proof and tells that, by the name of the file that it is about; or prints why it
/// can't be made.
fn make_and_tell<S: Shelf, K: Sink>(
    name: &str,
    to: &str,
    proof: &Detached,
    shelf: &mut S,
    out: &mut K,
) -> Result<(), Status>
    ensures made { CarriesOn (makes to.now (file_of proof.now) ∷ prints (wrote_text name.now) ∷ [])
        (S.told shelf.old) (S.told shelf.new) (S.faults shelf.old) (S.faults shelf.new)
        (Rose (K.faults out.old) (K.faults out.new)) (K.taken out.old) (K.taken out.new) result }
    ensures sink { SinkStays K.faults K.same out.old out.new }
{
    match make_proof(to, proof, shelf) {
        Ok(()) => match print_whole(&WroteLine(name), out) {
            Ok(()) => Ok(()),
            Err(Failed) => Err(Status::WriteFault),
        },
        Err(OutputError::Exists) => Err(refuse(to, Status::Exists, out)),
        Err(OutputError::WriteFault) => Err(refuse(to, Status::WriteFault, out)),
        Err(OutputError::OutOfMemory) => Err(Status::OutOfMemory),
    }
}
