//! What determines how a run ends.
ghost use Rattle.std.specs.Prelude.{◌≡◌, ◌≢◌, ℕ, List, [], Option, Some};
ghost use Rattle.std.specs.List.{AllByRecursion};
ghost use Rattle.ots_asking.specs.Conversation.{Converse, Question};
ghost use Rattle.ots_asking.specs.declared.outcome.Outcome.{Outcome};
ghost use Rattle.ots_base.specs.Cause.{Rose};
ghost use Rattle.ots_cli.specs.Answer.{Answers};
ghost use Rattle.ots_cli.specs.RunsFrom.{RunsFrom};
ghost use Rattle.ots_client_endings.specs.CarriedOut.{CarriesOut};
ghost use Rattle.ots_client_endings.specs.Ending.{Ending};
ghost use Rattle.ots_client_endings.specs.InTurn.{OpensInTurn};
ghost use Rattle.ots_client_endings.specs.Outside.{Happens, Outside};
ghost use Rattle.ots_client_inputs.specs.Inputs.{Input};
ghost use Rattle.ots_client_text.specs.declared.status.Status.{Status};
ghost use Rattle.ots_client_text.specs.declared.status.Status.TheVariants.{OutOfMemory};
ghost use Rattle.ots_client_words.specs.Words.{ClientCommand, command_of};
ghost use Rattle.ots_outside.specs.Dialer.{Connection, DialerTold, Sent};
ghost use Rattle.ots_outside.specs.Shelf.{Names};
ghost use Rattle.ots_reader.specs.OneAnswer.{IsShape};

use ots_asking::one_outcome;
use ots_outside::{Dialer, Nonces};

/// The words, the bytes under the names, the nonces that were drawn and the outcomes of the conversations that were had
/// determine how a run ends. And an ending is carried out in one way where nothing of the outside fails: what is under
/// each name then, what was printed, and the status are determined, want of memory aside. The bytes under the names
/// also determine which of them are opened, where reading is not broken off.
pub fn one_answer()
    ensures ending { (o : Outside) (names : Names) (c : Option ClientCommand) (d e : Ending)
        → Answers (λ x. x ≡ o) c (Some names) d → Answers (λ x. x ≡ o) c (Some names) e → d ≡ e }
    ensures carried { (e : Ending) (names : Names) (taken : List ℕ) (new other : Option Names)
        (now later : Option (List ℕ)) (q r : Status) → q ≢ OutOfMemory → r ≢ OutOfMemory
        → CarriesOut ⊥ ⊥ e.status e.acts (Some names) new (Some taken) now q
        → CarriesOut ⊥ ⊥ e.status e.acts (Some names) other (Some taken) later r
        → (new ≡ other) × (now ≡ later) × (q ≡ r) }
    ensures opened { (names : Names) (inputs : List Input) (old : List (List ℕ)) (new other : Option (List (List ℕ)))
        → OpensInTurn (Some names) inputs ⊥ (Some old) new → OpensInTurn (Some names) inputs ⊥ (Some old) other
        → new ≡ other }
{}

/// Where a dialer tells what was sent and the replies to come, and none of its calls fails, what calendars are asked
/// determines the outcome of each conversation. Each answer is to stand below a message of 1 to 4096 bytes and at most
/// 255 operations.
pub fn one_hearing<D: Dialer>()
    ensures { (questions : List Question) (old new : D) (heard other : List Outcome) (sent : List Sent)
        (replies : List (List ℕ)) → AllByRecursion (λ (q : Question). IsShape q.length q.depth) questions
        → (D.told old).sent ≡ Some sent → (D.told old).replies ≡ Some replies
        → ¬ Rose (D.faults old) (D.faults new) → Converse D.told D.faults questions old new heard
        → Converse D.told D.faults questions old new other → heard ≡ other }
{
    one_outcome();
}

/// The words, the bytes under the names, the replies to come and the bytes to come of nonces determine how a run ends,
/// where these are told and no call of the dialer or of the source of nonces fails. So two runs end alike, whatever
/// dialer and source each begins with and leaves. Clause `carried` of [`one_answer`] says what an ending comes to.
pub fn one_run<D: Dialer, N: Nonces>()
    ensures { (words : List (List ℕ)) (names : Names) (replies : List (List ℕ)) (bytes : List ℕ)
        (old new other last : D) (before now again later : N) (d e : Ending)
        → RunsFrom D.told D.faults N.left N.faults replies bytes old new before now
        → RunsFrom D.told D.faults N.left N.faults replies bytes other last again later
        → Answers (Happens D.told D.faults N.left N.faults old new before now) (command_of words) (Some names) d
        → Answers (Happens D.told D.faults N.left N.faults other last again later) (command_of words) (Some names) e
        → d ≡ e }
{
    one_outcome();
}

/// What [`one_run`] supposes of the outside can be met: by a dialer and a source of nonces that tell all that they have
/// and count no fault.
pub fn a_run()
    ensures { (replies : List (List ℕ)) (slots : ℕ → Connection) (bytes later : List ℕ) (now : DialerTold)
        → RunsFrom (λ (told : DialerTold). told) (λ told. 0) (λ (left : List ℕ). Some left) (λ left. 0) replies bytes
        (record { replies = Some replies; sent = Some []; slots = slots }) now bytes later }
{}
