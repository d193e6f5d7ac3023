//! The values of arguments that only `ots` has.
ghost use Rattle.std.specs.Prelude.{◌≡◌, ◌≤◌, None, Some, IfSome};
ghost use Rattle.std.specs.Option.{option_map};
ghost use Rattle.ots_client_words.specs.Words.{header_file, paths, perhaps_header_file_of, pins_file, read_header_file};
ghost use Rattle.ots_client_words.specs.Words.{read_sampling, wanted};

use crate::command::{HeaderFile, Sampling};
use crate::limits::{MAX_HEIGHT, MAX_PATHS, MAX_WANTED};
use ots_arguments::{nonempty, number};

/// How many calendars are wanted, by a word: 1 to [`MAX_WANTED`].
pub fn wanted(word: &str) -> Option<u32>
    ensures wanted { result ≡ wanted word.now }
    ensures some { IfSome result (λ n. 1 ≤ n) }
{
    Some(number(word, 1, MAX_WANTED)? as u32)
}

/// How many paths a sample is to have, by a word: 1 to [`MAX_PATHS`].
pub fn sampling(word: &str) -> Option<Sampling>
    ensures { option_map read_sampling result ≡ paths word.now }
{
    Some(Sampling {
        paths: number(word, 1, u64::from(MAX_PATHS))? as u32,
    })
}

/// A file of headers by two words: its name, and the height of its first header, at most
/// [`MAX_HEIGHT`].
pub fn header_file<'a>(name: &'a str, first: &str) -> Option<HeaderFile<'a>>
    ensures { option_map read_header_file result ≡ header_file name.entry.now first.now }
{
    Some(HeaderFile {
        name: nonempty(name)?,
        first: number(first, 0, MAX_HEIGHT)?,
    })
}

/// The file of pins that a word names, where it is given.
pub fn pins_file<'a>(name: Option<&'a str>) -> Option<Option<&'a str>>
    ensures { option_map (option_map (λ s. s.now)) result ≡ pins_file (option_map (λ s. s.now) name.entry) }
{
    match name {
        Some(name) => Some(Some(nonempty(name)?)),
        None => Some(None),
    }
}

/// The headers of Litecoin: both words or none.
pub fn litecoin_file<'a>(
    name: Option<&'a str>,
    first: Option<&str>,
) -> Option<Option<HeaderFile<'a>>>
    ensures { option_map (option_map read_header_file) result
        ≡ perhaps_header_file_of (option_map (λ s. s.now) name.entry) (option_map (λ s. s.now) first.entry) }
{
    match (name, first) {
        (Some(name), Some(first)) => Some(Some(header_file(name, first)?)),
        (None, None) => Some(None),
        _ => None,
    }
}
