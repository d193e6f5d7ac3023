//! The files that a command names.
ghost use Rattle.std.specs.Prelude.{◌≡◌, ◌==◌, ◌<◌, Some, length};
ghost use Rattle.std.specs.List.{slice_get};
ghost use Rattle.ots_archive_steps.specs.Entries.{entries_of, entry_as, name_of, ReadsEntries, result_entries};
ghost use Rattle.ots_archive_words.specs.Words.{read_names};

use crate::inputs::need;
use ots_archive_inputs::SumsReader;
use ots_archive_text::ArchiveStatus;
use ots_archive_words::Names;
use ots_archive_world::World;
use ots_sums::Sums;
use std::alloc::Global;

/// A file that is named.
#[derive(Clone, Copy)]
pub enum Entry<'a> {
    /// By a word, which is its name.
    Word(&'a str),
    /// By a line of a file of sums, which has the name of the file that a proof is about.
    Line(&'a [u8]),
}

impl<'a> Entry<'a> {
    /// The name as it was given.
    pub fn name(self) -> &'a [u8]
        ensures { result.now ≡ name_of (entry_as self.entry) }
    {
        match self {
            Entry::Word(name) => name.as_bytes(),
            Entry::Line(name) => name,
        }
    }
}

/// The files that are named, in order.
#[derive(Drop)]
pub enum Entries<'a> {
    /// By words.
    Words(Vec<&'a str>),
    /// By the lines of a file of sums.
    Lines(Sums),
}

impl<'a> Entries<'a> {
    /// How many there are.
    pub fn len(&self) -> usize
        ensures { result ≡ length (entries_of self.now) }
    {
        match self {
            Entries::Words(words) => words.len(),
            Entries::Lines(sums) => sums.len(),
        }
    }

    /// Whether there is none.
    pub fn is_empty(&self) -> bool
        ensures { result ≡ (length (entries_of self.now) == 0) }
    {
        self.len() == 0
    }

    /// One of them, counted from 0.
    pub fn get(&self, index: usize) -> Entry<'_>
        requires { index < length (entries_of self.now) }
        ensures { slice_get (entries_of self.now) index ≡ Some (entry_as result) }
    {
        match self {
            Entries::Words(words) => Entry::Word(words[index]),
            Entries::Lines(sums) => Entry::Line(sums.name(index)),
        }
    }
}

/// The files that the words name, or the lines of the file of sums that they name: where that can't be read, the run
/// ends with the line that tells why.
pub fn read_entries<'a, W: World>(
    alloc: Global,
    names: Names<'a>,
    world: &mut W,
) -> Result<Entries<'a>, ArchiveStatus>
    ensures { ReadsEntries (read_names names.entry) (W.told world.old) (W.told world.new) (result_entries result) }
{
    match names {
        Names::Given(words) => Ok(Entries::Words(words)),
        Names::Sums(name) => match need(alloc, name, &SumsReader, world) {
            Ok(sums) => Ok(Entries::Lines(sums)),
            Err(status) => Err(status),
        },
    }
}
