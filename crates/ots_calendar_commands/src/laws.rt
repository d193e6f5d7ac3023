//! What the definitions say of a run, beside what the call says.
ghost use Rattle.std.specs.Prelude.{◌≡◌, Option};
ghost use Rattle.ots_calendar_words.specs.Words.{DaemonCommand};
ghost use Rattle.ots_calendar_endings.specs.RunEnd.{RunEnd};
ghost use Rattle.ots_calendar_commands.specs.Meaning.{IsAlone, meaning_in};
ghost use Rattle.ots_calendar_commands.specs.Run.{TellsAll};

use crate::told::Run;

/// A command other than `serve` has one answer: where it is told what stands under each name, what the
/// journal's file holds, the clock's second, and which nonces were left before and after, there is one
/// status, one text and one list of entries that it may end with, faults of what is outside and want of
/// memory aside.
pub fn one_answer<T: Run>()
    ensures { (old : T) (new : T.After) → TellsAll (T.told old new) →
        (command : Option DaemonCommand) (d e : RunEnd) → IsAlone command →
        (meaning_in (T.told old new) command).answers d →
        (meaning_in (T.told old new) command).answers e → d ≡ e }
{}
