//! The words of the command line.
ghost use Rattle.std.specs.Prelude.{◌≡◌, ◌≢◌, true, false, None, Some, IfErr, IfOk, MatchResult};
ghost use Rattle.std.specs.Option.{option_map};
ghost use Rattle.clap.specs.Words.{app_of, found_of, matches_of, rows_of, rule_of};
ghost use Rattle.ots_arguments.specs.Arguments.{argument, is_taken, simple};
ghost use Rattle.ots_arguments.specs.declared.arguments.Kind.TheVariants.{Optional, Required};
ghost use Rattle.ots_gateway_words.specs.Command.{command};
ghost use Rattle.ots_gateway_words.specs.Words.{arguments, asked, command_line, gathering_in, name, read_as};

use crate::gathering::Gathering;
use crate::limits::{MAX_ACCEPT, MAX_PORT, MAX_ROUND, MAX_TREES};
use clap::error::ErrorKind;
use clap::{Arg, ArgAction, ArgMatches, Command};
use ots_arguments::{WordsError, number_of, perhaps_number_of, value};
use std::alloc::{AllocError, Global};

/// What the words after the program's name ask for, where they are of the form.
///
/// # Errors
///
/// [`WordsError::Usage`] where the words are not of the form, also where they call for help;
/// [`WordsError::OutOfMemory`] where memory ran out.
pub fn read_words<'a>(alloc: Global, words: &'a [String]) -> Result<Gathering<'a>, WordsError>
    ensures { MatchResult result (λ g. asked words.entry.now ≡ Some (read_as g))
        (λ e. e ≡ WordsError.Usage → asked words.entry.now ≡ None) }
{
    match read_arguments(alloc, words) {
        Ok(matches) => match gathering_of(&matches) {
            Some(gathering) => Ok(gathering),
            None => Err(WordsError::Usage),
        },
        Err(error) => Err(error),
    }
}

/// What is asked for, by the values of the arguments.
fn gathering_of<'a>(matches: &ArgMatches<'a>) -> Option<Gathering<'a>>
    ensures { option_map read_as result ≡ gathering_in (rows_of (found_of matches.now)) }
{
    Some(Gathering {
        calendars: value(matches, "calendars")?,
        min: number_of(matches, "min", 1, MAX_TREES)? as u32,
        port: number_of(matches, "port", 1, MAX_PORT)? as u16,
        round: number_of(matches, "round", 1, MAX_ROUND)? as u32,
        accept: perhaps_number_of(matches, "accept", 1, MAX_ACCEPT)?,
    })
}

/// What `clap` makes of the words, as it does of a command line in which the program's name stands
/// before them.
fn read_arguments<'a>(alloc: Global, words: &'a [String]) -> Result<ArgMatches<'a>, WordsError>
    ensures taken { IfOk result (λ m. is_taken (simple name arguments) (command_line words.entry.now) ≡ true) }
    ensures values { IfOk result (λ m. rows_of (found_of m)
        ≡ matches_of (simple name arguments) (command_line words.entry.now)) }
    ensures refused { IfErr result (λ e. e ≡ WordsError.Usage
        → is_taken (simple name arguments) (command_line words.entry.now) ≢ true) }
{
    let command = command(alloc)?;
    match command.try_get_matches_from(words) {
        Ok(matches) => Ok(matches),
        Err(error) => match error.kind() {
            ErrorKind::OutOfMemory => Err(WordsError::OutOfMemory),
            _ => Err(WordsError::Usage),
        },
    }
}

/// The command for `clap`: each word is one of its arguments.
fn command<'a>(alloc: Global) -> Result<Command<'a>, AllocError>
    ensures { IfOk result (λ c. app_of c ≡ command) }
{
    Command::new(alloc, "otsgate")
        .no_binary_name(true)
        .arg(required(alloc, "calendars"))?
        .arg(required(alloc, "min"))?
        .arg(required(alloc, "port"))?
        .arg(required(alloc, "round"))?
        .arg(optional(alloc, "accept"))
}

/// An option that the words have to give.
fn required<'a>(alloc: Global, name: &'a str) -> Arg<'a>
    ensures rule { rule_of result ≡ argument name.now Required }
    ensures local { result.global ≡ false }
{
    optional(alloc, name).required(true)
}

/// An option that may be absent.
fn optional<'a>(alloc: Global, name: &'a str) -> Arg<'a>
    ensures rule { rule_of result ≡ argument name.now Optional }
    ensures local { result.global ≡ false }
{
    Arg::new(alloc, name).action(ArgAction::Set).long(name)
}
