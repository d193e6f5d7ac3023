//! The arguments of a command, and the words that `clap` takes for them.
ghost use Rattle.std.specs.Prelude.{◌≡◌, ◌≢◌, true, map, string_bytes, IfErr, IfOk, false};
ghost use Rattle.std.specs.Option.{option_map};
ghost use Rattle.clap.specs.Words.{first_of, found_of, is_simple_and_free, matches_of, rows_of, rule_of};
ghost use Rattle.ots_arguments.specs.Arguments.{argument, described, is_taken, simple};

use crate::error::WordsError;
use clap::error::ErrorKind;
use clap::{Arg, ArgAction, ArgMatches};
use std::alloc::Global;

/// How an argument is given.
#[derive(Clone, Copy)]
pub enum Kind {
    /// By its place.
    Positional,
    /// As an option, after its name with two dashes.
    Required,
    /// As an option that may be absent.
    Optional,
    /// By its place, once or more. No other place comes after it.
    Several,
}

/// An argument of a command by its name, which has one value, or one or more where it is of the kind
/// [`Several`](Kind::Several).
#[derive(Clone, Copy)]
pub struct Argument(pub &'static str, pub Kind);

/// What `clap` makes of the words for the command of this name with these arguments. The first word
/// stands for the command. This command has to be simple in `clap`'s sense, so that no place comes
/// after one of the kind [`Several`](Kind::Several).
///
/// # Errors
///
/// [`WordsError::Usage`] where `clap` does not take the words for these arguments, also where they
/// call for help; [`WordsError::OutOfMemory`] where memory ran out.
pub fn read_arguments<'a>(
    alloc: Global,
    name: &'a str,
    arguments: &'a [Argument],
    words: &'a [String],
) -> Result<ArgMatches<'a>, WordsError>
    requires { is_simple_and_free (simple name.now (map described arguments.now)) ≡ true }
    ensures taken { IfOk result (λ m. is_taken (simple name.entry.now (map described arguments.entry.now))
        (map string_bytes words.entry.now) ≡ true) }
    ensures values { IfOk result (λ m. rows_of (found_of m) ≡ matches_of
        (simple name.entry.now (map described arguments.entry.now)) (map string_bytes words.entry.now)) }
    ensures refused { IfErr result (λ e. e ≡ WordsError.Usage
        → is_taken (simple name.entry.now (map described arguments.entry.now)) (map string_bytes words.entry.now)
        ≢ true) }
{
    let mut command = clap::Command::new(alloc, name);
    for argument in arguments {
        command = command.arg(argument.to_clap(alloc))?;
    }
    match command.try_get_matches_from(words) {
        Ok(matches) => Ok(matches),
        Err(error) => match error.kind() {
            ErrorKind::OutOfMemory => Err(WordsError::OutOfMemory),
            _ => Err(WordsError::Usage),
        },
    }
}

impl Argument {
    /// The same for `clap`.
    fn to_clap(&self, alloc: Global) -> Arg<'static>
        ensures rule { rule_of result ≡ argument self.now.0.now self.now.1 }
        ensures local { result.global ≡ false }
    {
        let Argument(name, kind) = *self;
        let argument = Arg::new(alloc, name);
        match kind {
            Kind::Positional => argument.action(ArgAction::Set).required(true),
            Kind::Required => argument.action(ArgAction::Set).long(name).required(true),
            Kind::Optional => argument.action(ArgAction::Set).long(name),
            Kind::Several => argument
                .action(ArgAction::Append)
                .num_args(1..)
                .required(true),
        }
    }
}

/// The value of the argument of this name, where the words give one; its first, where it has several.
pub fn value<'a>(matches: &ArgMatches<'a>, name: &str) -> Option<&'a str>
    ensures { option_map (λ s. s.now) result ≡ first_of name.now (rows_of (found_of matches.now)) }
{
    matches.get_str(name)
}
