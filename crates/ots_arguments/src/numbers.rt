//! Numbers.
ghost use Rattle.std.specs.Prelude.{◌≡◌, ◌≤◌, None, Some, IfSome};
ghost use Rattle.clap.specs.Words.{first_of, found_of, rows_of};
ghost use Rattle.ots_arguments.specs.Values.{number, number_in, perhaps_number_in};

use crate::arguments::value;
use clap::ArgMatches;

/// The number that the argument of this name gives, from `least` to `most`: `None` where it gives
/// none, or a word that is no such [`number`].
pub fn number_of(matches: &ArgMatches<'_>, name: &str, least: u64, most: u64) -> Option<u64>
    ensures number { result ≡ number_in (rows_of (found_of matches.now)) name.now least most }
    ensures within { IfSome result (λ n. (least ≤ n) × (n ≤ most)) }
{
    number(value(matches, name)?, least, most)
}

/// The number that the argument of this name gives, from `least` to `most`, where it gives one:
/// `None` where it gives a word that is no such [`number`], and `Some(None)` where it is absent.
pub fn perhaps_number_of(
    matches: &ArgMatches<'_>,
    name: &str,
    least: u64,
    most: u64,
) -> Option<Option<u64>>
    ensures number { result ≡ perhaps_number_in (rows_of (found_of matches.now)) name.now least most }
    ensures within { IfSome result (λ given. IfSome given (λ n. (least ≤ n) × (n ≤ most))) }
{
    match value(matches, name) {
        Some(word) => Some(Some(number(word, least, most)?)),
        None => Some(None),
    }
}

/// The number that a word is the decimal text of, from `least` to `most`: `None` where it is of none
/// of these. A sign or a leading zero is in no such text.
pub fn number(word: &str, least: u64, most: u64) -> Option<u64>
    ensures number { result ≡ number least most word.now }
    ensures within { IfSome result (λ n. (least ≤ n) × (n ≤ most)) }
{
    let number = word.parse::<u64>().ok()?;
    if number < least || number > most || itoa::Buffer::new().format(number) != word {
        return None;
    }
    Some(number)
}
