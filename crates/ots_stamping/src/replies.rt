//! What came of asking calendars to timestamp files.
ghost use Rattle.std.specs.Prelude.{◌≡◌, ◌<◌, [], length, slice_index_or, IfOk};
ghost use Rattle.ots_arguments.specs.Values.{texts};
ghost use Rattle.ots_client_endings.specs.Ending.{IsStampAt};
ghost use Rattle.ots_stamp.specs.Stamped.{GathersForm, IsSoundBelow, good_trees};

use ots_address::Address;
use ots_asking::Outcome;
use ots_base::OutOfMemory;
use ots_lines::put_calendars;
use ots_outputs::PrintedText;
use ots_outside::Sink;
use ots_printer::Printer;
use ots_stamp::Batch;
use ots_tree::{Detached, Tree};
use std::alloc::Global;
use std::marker::Model;

/// What came of asking calendars.
#[derive(Drop)]
pub struct Replies {
    pub calendars: Vec<Address>,
    /// What came of asking each of them.
    pub outcomes: Vec<Outcome>,
    pub ghost each: { length outcomes.items ≡ length calendars.items },
}

/// A line for each calendar that was asked.
#[derive(Clone, Copy)]
pub struct CalendarLines<'a>(pub &'a Replies);

impl PrintedText for CalendarLines<'_> {
    ghost use Rattle.std.specs.Prelude.{◌≡◌};
    ghost use Rattle.ots_stamping.specs.Stamp.{calendars_text};

    ghost is_text = { λ t bytes. bytes ≡ calendars_text t.0.now.calendars.items t.0.now.outcomes.items };

    fn put<K: Sink>(&self, out: &mut Printer<'_, K>) {
        put_calendars(&self.0.calendars, &self.0.outcomes, out)
    }
}

/// Files that calendars have timestamped, whose proofs are still to be made.
///
/// Contracts see the names of the files, what is stamped, and what came of asking each calendar.
#[derive(Drop)]
pub struct Stamped<'a> {
    replies: Replies,
    files: Vec<&'a str>,
    batch: Batch,
    form: Tree,
}

impl<'a> Model for Stamped<'a> {
    ghost use Rattle.ots_stamping.specs.Answered.{KeepsStamped, StampedFiles};
    ghost use Rattle.ots_arguments.specs.Values.{texts};

    ghost Value = { StampedFiles };

    ghost view = { λ s. record {
      calendars = s.replies.calendars.items;
      outcomes = s.replies.outcomes.items;
      files = texts s.files.items;
      targets = s.batch;
    } };

    ghost invariant = { λ s. KeepsStamped (texts s.files.items) s.batch s.replies.outcomes.items s.form };
}

impl<'a> Stamped<'a> {
    /// Files of a batch that were timestamped, where the good trees of all calendars are gathered in
    /// one, and that is in canonical form.
    pub fn new(replies: Replies, files: Vec<&'a str>, batch: Batch, form: Tree) -> Stamped<'a>
        requires count { length files.items ≡ length batch }
        requires sound { IsSoundBelow batch form }
        requires gathers { GathersForm (good_trees replies.outcomes.items) form }
        ensures { result ≡ record {
          calendars = replies.calendars.items;
          outcomes = replies.outcomes.items;
          files = texts files.entry.items;
          targets = batch;
        } }
    {
        Stamped {
            replies,
            files,
            batch,
            form,
        }
    }

    /// What came of asking the calendars.
    pub fn replies(&self) -> &Replies
        ensures calendars { result.now.calendars.items ≡ self.now.calendars }
        ensures outcomes { result.now.outcomes.items ≡ self.now.outcomes }
    {
        &self.replies
    }

    /// How many files there are.
    pub fn count(&self) -> usize
        ensures { result ≡ length self.now.files }
    {
        self.files.len()
    }

    /// The name of one of the files.
    pub fn name(&self, i: usize) -> &'a str
        requires { i < length self.now.files }
        ensures { result.now ≡ slice_index_or self.now.files i [] }
    {
        self.files[i]
    }

    /// The proof of one of the files.
    pub fn proof(&self, alloc: Global, i: usize) -> Result<Detached, OutOfMemory>
        requires { i < length self.now.files }
        ensures { IfOk result (IsStampAt self.now.targets (good_trees self.now.outcomes) i) }
    {
        self.batch.proof_below(alloc, i, &self.form)
    }
}
