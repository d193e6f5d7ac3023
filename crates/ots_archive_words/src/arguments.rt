//! The arguments of the commands for `clap`, and the values of those that only `otsarchive` has.
ghost use Rattle.std.specs.Prelude.{◌≡◌, codes, IfOk, IfSome, false};
ghost use Rattle.std.specs.Option.{option_map};
ghost use Rattle.clap.specs.Words.{found_of, rows_of, rule_of};
ghost use Rattle.ots_archive_words.specs.Names.{AreFew};
ghost use Rattle.ots_archive_words.specs.Words.{any_number, flag, given, is_given, names_or_sums, read_names, sums};
ghost use Rattle.ots_arguments.specs.Arguments.{argument};
ghost use Rattle.ots_arguments.specs.Values.{names_in, nonempty};
ghost use Rattle.ots_arguments.specs.declared.arguments.Kind.TheVariants.{Optional, Positional, Required};

use crate::limits::MAX_NAMES;
use crate::names::Names;
use clap::{Arg, ArgAction, ArgMatches};
use ots_arguments::{file_names, nonempty, value};
use std::alloc::{AllocError, Global};

/// An argument that is given by its place.
pub fn positional<'a>(alloc: Global, name: &'a str) -> Arg<'a>
    ensures rule { rule_of result ≡ argument name.now Positional }
    ensures local { result.global ≡ false }
{
    Arg::new(alloc, name).action(ArgAction::Set).required(true)
}

/// An option that the words have to give.
pub fn required<'a>(alloc: Global, name: &'a str) -> Arg<'a>
    ensures rule { rule_of result ≡ argument name.now Required }
    ensures local { result.global ≡ false }
{
    optional(alloc, name).required(true)
}

/// An option that may be absent.
pub fn optional<'a>(alloc: Global, name: &'a str) -> Arg<'a>
    ensures rule { rule_of result ≡ argument name.now Optional }
    ensures local { result.global ≡ false }
{
    Arg::new(alloc, name).action(ArgAction::Set).long(name)
}

/// An option without a value, which may be absent.
pub fn flag<'a>(alloc: Global, name: &'a str) -> Arg<'a>
    ensures rule { rule_of result ≡ flag name.now }
    ensures local { result.global ≡ false }
{
    Arg::new(alloc, name).action(ArgAction::SetTrue).long(name)
}

/// An argument that is given by its place, any number of times. No other place comes after it.
pub fn any_number<'a>(alloc: Global, name: &'a str) -> Arg<'a>
    ensures rule { rule_of result ≡ any_number name.now }
    ensures local { result.global ≡ false }
{
    Arg::new(alloc, name)
        .action(ArgAction::Append)
        .num_args(1..)
}

/// Whether the flag of this name is given.
pub fn is_given(matches: &ArgMatches<'_>, name: &str) -> bool
    ensures { result ≡ is_given (rows_of (found_of matches.now)) name.now }
{
    match value(matches, name) {
        Some(text) => text == "true",
        None => false,
    }
}

/// The names that the words give, or the file of sums in their place: `None` where there are both or neither, or names
/// that are too many, or an empty one.
pub fn names_or_sums<'a>(
    alloc: Global,
    matches: &ArgMatches<'a>,
) -> Result<Option<Names<'a>>, AllocError>
    ensures names { IfOk result (λ found. option_map read_names found
        ≡ names_or_sums (rows_of (found_of matches.now))) }
    ensures few { IfOk result (λ found. IfSome found AreFew) }
{
    match (value(matches, "names"), value(matches, "sums")) {
        (Some(_), None) => given_names(alloc, matches),
        (None, Some(sums)) => Ok(sums_file(sums)),
        _ => Ok(None),
    }
}

/// The names that the words give.
fn given_names<'a>(alloc: Global, matches: &ArgMatches<'a>) -> Result<Option<Names<'a>>, AllocError>
    ensures names { IfOk result (λ found. option_map read_names found
        ≡ option_map given (names_in (rows_of (found_of matches.now)) (codes "names") MAX_NAMES)) }
    ensures few { IfOk result (λ found. IfSome found AreFew) }
{
    let Some(names) = file_names(matches, "names", MAX_NAMES) else {
        return Ok(None);
    };
    Ok(Some(Names::Given(names.to_vec(alloc)?)))
}

/// The file of sums that a word names.
fn sums_file(word: &str) -> Option<Names<'_>>
    ensures names { option_map read_names result ≡ option_map sums (nonempty word.entry.now) }
    ensures few { IfSome result AreFew }
{
    Some(Names::Sums(nonempty(word)?))
}
