//! Names of files.
ghost use Rattle.std.specs.Prelude.{◌≡◌, None, Some, true, false};
ghost use Rattle.std.specs.Option.{option_map};
ghost use Rattle.clap.specs.Words.{found_of, rows_of};
ghost use Rattle.ots_arguments.specs.Values.{name_in, names_in, nonempty, some_names, texts};

use crate::arguments::value;
use clap::ArgMatches;

/// The name of a file that the argument of this name gives: `None` where it gives none, or an empty
/// one.
pub fn file_name<'a>(matches: &ArgMatches<'a>, name: &str) -> Option<&'a str>
    ensures { option_map (λ s. s.now) result ≡ name_in (rows_of (found_of matches.now)) name.now }
{
    nonempty(value(matches, name)?)
}

/// The names of files that the argument of this name gives: `None` where it gives none, more than
/// `most`, or an empty one.
pub fn file_names<'m, 'a>(
    matches: &'m ArgMatches<'a>,
    name: &str,
    most: usize,
) -> Option<&'m [&'a str]>
    ensures { option_map (λ s. texts s.now) result ≡ names_in (rows_of (found_of matches.now)) name.now most }
{
    some_names(matches.get_strs(name)?, most)
}

/// A name that isn't empty: `None` where it is.
pub fn nonempty(name: &str) -> Option<&str>
    ensures { option_map (λ s. s.now) result ≡ nonempty name.entry.now }
{
    if name.is_empty() {
        return None;
    }
    Some(name)
}

/// Names of which there are some, at most `most`, and none is empty.
fn some_names<'m, 'a>(names: &'m [&'a str], most: usize) -> Option<&'m [&'a str]>
    ensures { option_map (λ s. texts s.now) result ≡ some_names most (texts names.entry.now) }
{
    if names.is_empty() || names.len() > most {
        return None;
    }
    for name in names {
        if name.is_empty() {
            return None;
        }
    }
    Some(names)
}
