//! What came of asking calendars for the pairs of a proof.
ghost use Rattle.std.specs.Prelude.{◌≡◌, ◌<◌, Some, length};
ghost use Rattle.std.specs.List.{slice_get};
ghost use Rattle.std.specs.Option.{option_copied};
ghost use Rattle.ots_upgrade.specs.AskedList.{asked_with};
ghost use Rattle.ots_upgrade.specs.declared.asking.AskedAt.{AskedAt};

use ots_asking::Outcome;
use ots_attest::Uri;
use ots_ops::Message;
use ots_pending::Pairs;
use std::marker::Model;

/// A pair of a URI and a message that a proof asks a calendar for, and what came of asking: so
/// contracts see each element of an [`AskedList`].
#[derive(Debug, Drop)]
pub struct AskedAt {
    /// The URI of the calendar.
    pub uri: Uri,
    /// The message whose timestamp the calendar is to have.
    pub message: Message,
    /// What came of the conversation; nothing where no calendar was asked.
    pub outcome: Option<Outcome>,
}

/// The pairs that a proof asks calendars for, in the order in which they first come, each with what
/// came of asking for it. A message that several pairs ask for lies in memory once.
///
/// Contracts see the list of them, each an [`AskedAt`].
#[derive(Drop)]
pub struct AskedList {
    pairs: Pairs,
    outcomes: Vec<Option<Outcome>>,
}

impl Model for AskedList {
    ghost use Rattle.std.specs.Prelude.{◌≡◌, List, length};
    ghost use Rattle.ots_upgrade.specs.declared.asking.AskedAt.{AskedAt};
    ghost use Rattle.ots_upgrade.specs.AskedList.{asked_with};

    ghost Value = { List AskedAt };

    ghost view = { λ asked. asked_with asked.pairs asked.outcomes.items };

    ghost invariant = { λ asked. length asked.outcomes.items ≡ length asked.pairs };
}

impl AskedList {
    /// These pairs, each with what came of asking for it.
    pub(crate) fn new(pairs: Pairs, outcomes: Vec<Option<Outcome>>) -> AskedList
        requires { length outcomes.items ≡ length pairs }
        ensures { result ≡ asked_with pairs outcomes.items }
    {
        AskedList { pairs, outcomes }
    }

    /// How many pairs there are.
    pub fn len(&self) -> usize
        ensures { result ≡ length self.now }
    {
        self.pairs.len()
    }

    /// The URI of a pair, by its place among them, from 0.
    pub fn uri(&self, i: usize) -> &Uri
        requires { i < length self.now }
        ensures { (a : AskedAt) → slice_get self.now i ≡ Some a → result.now ≡ a.uri }
    {
        self.pairs.uri(i)
    }

    /// The message of a pair.
    pub fn message(&self, i: usize) -> &Message
        requires { i < length self.now }
        ensures { (a : AskedAt) → slice_get self.now i ≡ Some a → result.now ≡ a.message }
    {
        self.pairs.message(i)
    }

    /// What came of asking for a pair; nothing where no calendar was asked.
    pub fn outcome(&self, i: usize) -> Option<&Outcome>
        requires { i < length self.now }
        ensures { (a : AskedAt) → slice_get self.now i ≡ Some a → option_copied result ≡ a.outcome }
    {
        self.outcomes[i].as_ref()
    }
}
