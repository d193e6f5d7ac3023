//! Calendars are asked to timestamp the root over files, and that is written.
ghost use Rattle.std.specs.Prelude.{◌≡◌, ◌≤◌, ◌⊎◌, [], ◌∷◌, length, map, IfOk, OnErr};
ghost use Rattle.ots_client_endings.specs.Runs.{Finishes, at};
ghost use Rattle.ots_stamp.specs.Stamped.{AreSoundBelow, good_trees};
ghost use Rattle.ots_stamping.specs.Answered.{AnswersTo, EndsStamping, Submits};

use crate::replies::{CalendarLines, Replies, Stamped};
use crate::submission::Submission;
use crate::write_stamps::make_stamps;
use ots_asking::Outcome;
use ots_base::OutOfMemory;
use ots_canon::canon;
use ots_client_endings::refuse_after;
use ots_client_text::Status;
use ots_outside::{Dialer, Shelf, Sink};
use ots_stamp::{Batch, Target, gather_good};
use std::alloc::Global;

/// Asks calendars to timestamp the root over files with their nonces, and writes what comes of it. Where memory ran out
/// nothing is written yet.
pub fn submit<S: Shelf, K: Sink, D: Dialer>(
    alloc: Global,
    submission: Submission<'_>,
    targets: Vec<Target>,
    shelf: &mut S,
    out: &mut K,
    dialer: &mut D,
) -> Result<Status, OutOfMemory>
    requires { map (λ t. t.digest) targets.items ≡ submission.digests.items }
    ensures finishes { IfOk result
        (Finishes (AnswersTo D.told D.faults submission.entry targets.items dialer.old dialer.new)
        (at S.told S.faults K.taken K.faults shelf.old out.old)
        (at S.told S.faults K.taken K.faults shelf.new out.new)) }
    ensures short { OnErr result (at S.told S.faults K.taken K.faults shelf.new out.new
        ≡ at S.told S.faults K.taken K.faults shelf.old out.old) }
    ensures asks { (dialer.new ≡ dialer.old)
        ⊎ Submits D.told D.faults submission.entry targets.items dialer.old dialer.new }
    ensures same { K.same out.old out.new }
{
    let batch = Batch::new(alloc, targets)?;
    let outcomes = batch.ask(alloc, dialer, &submission.calendars)?;
    write_answers(alloc, submission, batch, outcomes, shelf, out)
}

/// Tells what came of asking each calendar, and makes the proof of each file where enough of them timestamped the
/// files. Where memory ran out nothing is written yet.
fn write_answers<S: Shelf, K: Sink>(
    alloc: Global,
    submission: Submission<'_>,
    batch: Batch,
    outcomes: Vec<Outcome>,
    shelf: &mut S,
    out: &mut K,
) -> Result<Status, OutOfMemory>
    requires each { length outcomes.items ≡ length submission.calendars.items }
    requires count { length submission.files.items ≡ length batch }
    requires sound { AreSoundBelow batch outcomes.items }
    ensures finishes { IfOk result (Finishes (EndsStamping submission.entry batch outcomes.items)
        (at S.told S.faults K.taken K.faults shelf.old out.old)
        (at S.told S.faults K.taken K.faults shelf.new out.new)) }
    ensures short { OnErr result (at S.told S.faults K.taken K.faults shelf.new out.new
        ≡ at S.told S.faults K.taken K.faults shelf.old out.old) }
    ensures same { K.same out.old out.new }
{
    let good = gather_good(&outcomes)?;
    let got = count_good(&outcomes);
    let replies = Replies {
        calendars: submission.calendars,
        outcomes,
    };
    match good {
        Some(good) if got >= submission.least as usize => {
            let form = canon(alloc, &good)?;
            let stamped = Stamped::new(replies, submission.files, batch, form);
            Ok(make_stamps(alloc, &stamped, shelf, out))
        }
        _ => {
            let too_few = Status::TooFew {
                got: got as u32,
                wanted: submission.least,
            };
            Ok(refuse_after(&CalendarLines(&replies), "", too_few, out))
        }
    }
}

/// How many calendars timestamped the files.
fn count_good(outcomes: &[Outcome]) -> usize
    ensures { result ≡ length (good_trees outcomes.now) }
{
    let mut count = 0;
    for outcome in outcomes {
        count += count_one(outcome);
    }
    count
}

/// One for a calendar that timestamped the files, and none for another.
fn count_one(outcome: &Outcome) -> usize
    ensures good { result ≡ length (good_trees (outcome.now ∷ [])) }
    ensures most { result ≤ 1 }
{
    match outcome {
        Outcome::Tree(_) => 1,
        _ => 0,
    }
}
