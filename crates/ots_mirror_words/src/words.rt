//! The words of the command line.
ghost use Rattle.std.specs.Prelude.{◌≡◌, None, Some, map, string_bytes, MatchResult};
ghost use Rattle.std.specs.Option.{option_map};
ghost use Rattle.clap.specs.Words.{found_of, rows_of};
ghost use Rattle.ots_arguments.specs.Arguments.{described};
ghost use Rattle.ots_mirror_words.specs.Words.{arguments, asked, asked_by, mirroring_in, read_as};

use clap::ArgMatches;
use ots_arguments::{Argument, Kind, WordsError, number_of, read_arguments, value};
use std::alloc::Global;

/// The most rounds of a run.
const MAX_ROUNDS: u64 = 1_000_000;

/// What the words ask for: `JOURNAL ADDRESS --rounds N`, of the journal that the first of them names.
#[derive(Clone, Copy)]
pub struct Mirroring<'a> {
    /// The calendar's address.
    pub address: &'a str,
    /// How many rounds are made at most, 1 to 1,000,000.
    pub rounds: u64,
}

/// `ADDRESS --rounds N`.
static ARGUMENTS: [Argument; 2] = [
    Argument("address", Kind::Positional),
    Argument("rounds", Kind::Required),
];

/// The arguments after the journal's name.
fn arguments() -> &'static [Argument]
    ensures { map described result.now ≡ arguments }
{
    ARGUMENTS.as_slice()
}

/// What the words ask for, where they are of the form. The first of them names the journal, and
/// is not empty.
pub fn read_words<'a>(alloc: Global, words: &'a [String]) -> Result<Mirroring<'a>, WordsError>
    ensures { MatchResult result (λ m. asked words.entry.now ≡ Some (read_as m))
        (λ e. e ≡ WordsError.Usage → asked words.entry.now ≡ None) }
{
    let Some(journal) = words.first() else {
        return Err(WordsError::Usage);
    };
    if journal.is_empty() {
        return Err(WordsError::Usage);
    }
    read_form(alloc, words)
}

/// What the words after the journal's name ask for. That name stands where `clap` looks for the
/// program's.
fn read_form<'a>(alloc: Global, words: &'a [String]) -> Result<Mirroring<'a>, WordsError>
    ensures { MatchResult result (λ m. asked_by (map string_bytes words.entry.now) ≡ Some (read_as m))
        (λ e. e ≡ WordsError.Usage → asked_by (map string_bytes words.entry.now) ≡ None) }
{
    match read_arguments(alloc, "otsmirror", arguments(), words) {
        Ok(matches) => match mirroring_of(&matches) {
            Some(mirroring) => Ok(mirroring),
            None => Err(WordsError::Usage),
        },
        Err(error) => Err(error),
    }
}

/// What is asked for, by the values of the arguments.
fn mirroring_of<'a>(matches: &ArgMatches<'a>) -> Option<Mirroring<'a>>
    ensures { option_map read_as result ≡ mirroring_in (rows_of (found_of matches.now)) }
{
    Some(Mirroring {
        address: value(matches, "address")?,
        rounds: number_of(matches, "rounds", 1, MAX_ROUNDS)?,
    })
}
