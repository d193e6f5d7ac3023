//! The command `stamp`.
ghost use Rattle.std.specs.Prelude.{◌≡◌, ◌⊎◌, length, Some};
ghost use Rattle.ots_arguments.specs.Values.{texts};
ghost use Rattle.ots_base.specs.Cause.{Rose};
ghost use Rattle.ots_client_endings.specs.Outside.{DrawsSome, Happens};
ghost use Rattle.ots_client_endings.specs.Runs.{Runs, at};
ghost use Rattle.ots_client_words.specs.Words.{read_stamping};
ghost use Rattle.ots_outside.specs.Shelf.{Names};
ghost use Rattle.ots_stamping.specs.Asking.{StampsUpTo};
ghost use Rattle.ots_stamping.specs.Complete.{AreSubmitted, CanStamp, Concludes};
ghost use Rattle.ots_stamping.specs.Stamp.{StampsFilesAs, inputs_stamped};

use crate::drawing::{DrawError, draw_targets};
use crate::hashing::read_submission;
use crate::submitting::submit;
use ots_base::OutOfMemory;
use ots_client_endings::{refuse, refuse_stop};
use ots_client_text::Status;
use ots_client_words::Stamping;
use ots_outside::{Dialer, Nonces, Shelf, Sink};
use std::alloc::Global;

/// Asks calendars to timestamp files, and makes the proof of each under its name and `.ots`, which must not be there
/// yet. Each file is hashed by SHA-256 with a nonce of its own, of 16 bytes, and each calendar of the list is sent the
/// root over all of them, in a conversation of its own. A line is printed for each calendar and for each proof that is
/// made. Where fewer calendars than are wanted answer a good tree, no proof is made.
pub fn stamp<S: Shelf, K: Sink, D: Dialer, N: Nonces>(
    alloc: Global,
    asked: Stamping<'_>,
    shelf: &mut S,
    out: &mut K,
    dialer: &mut D,
    nonces: &mut N,
) -> Status
    ensures runs { Runs (λ told. StampsFilesAs
        (Happens D.told D.faults N.left N.faults dialer.old dialer.new nonces.old nonces.new) told
        (read_stamping asked.entry)) (inputs_stamped (read_stamping asked.entry))
        (at S.told S.faults K.taken K.faults shelf.old out.old)
        (at S.told S.faults K.taken K.faults shelf.new out.new) result }
    ensures asks { (dialer.new ≡ dialer.old) ⊎ StampsUpTo D.told D.faults N.left (S.told shelf.old).names
        (read_stamping asked.entry) dialer.old dialer.new nonces.old nonces.new }
    ensures draws { DrawsSome N.left (length (texts asked.entry.files.items)) nonces.old nonces.new }
    ensures completes { (names : Names) → (S.told shelf.old).names ≡ Some names
        → CanStamp names (read_stamping asked.entry)
        → Concludes (AreSubmitted
        (Happens D.told D.faults N.left N.faults dialer.old dialer.new nonces.old nonces.new) (Some names)
        (read_stamping asked.entry)) asked.entry.least (Rose (N.faults nonces.old) (N.faults nonces.new))
        (at S.told S.faults K.taken K.faults shelf.old out.old)
        (at S.told S.faults K.taken K.faults shelf.new out.new) result }
    ensures same { K.same out.old out.new }
{
    let submission = match read_submission(alloc, asked, shelf) {
        Ok(submission) => submission,
        Err(stop) => return refuse_stop(stop, out),
    };
    let targets = match draw_targets(alloc, &submission.digests, nonces) {
        Ok(targets) => targets,
        Err(DrawError::NonceFault) => return refuse("", Status::NonceFault, out),
        Err(DrawError::OutOfMemory) => return Status::OutOfMemory,
    };
    match submit(alloc, submission, targets, shelf, out, dialer) {
        Ok(status) => status,
        Err(OutOfMemory) => Status::OutOfMemory,
    }
}
