//! All that the program does.
ghost use Rattle.std.specs.Prelude.{map, string_bytes};
ghost use Rattle.ots_archive.specs.Run.{Does, Ran};
ghost use Rattle.ots_archive_words.specs.Words.{read_as};

use ots_archive_ask::ask;
use ots_archive_draft::draft;
use ots_archive_steps::refuse;
use ots_archive_take::take;
use ots_archive_text::ArchiveStatus;
use ots_archive_words::{ArchiveCommand, read_words};
use ots_archive_world::World;
use ots_arguments::WordsError;
use std::alloc::Global;

/// Does what the words after the program's name ask for, and answers how that ended.
pub fn run_archive<W: World>(alloc: Global, words: &[String], world: &mut W) -> ArchiveStatus
    ensures { Ran (map string_bytes words.now) (W.told world.old) (W.told world.new) result }
{
    match read_words(alloc, words) {
        Ok(command) => run_command(alloc, command, world),
        Err(WordsError::Usage) => refuse(b"", ArchiveStatus::Usage, world),
        Err(WordsError::OutOfMemory) => ArchiveStatus::OutOfMemory,
    }
}

/// Does what a command asks for.
fn run_command<W: World>(alloc: Global, command: ArchiveCommand<'_>, world: &mut W) -> ArchiveStatus
    ensures { Does (read_as command.entry) (W.told world.old) (W.told world.new) result }
{
    match command {
        ArchiveCommand::Draft(drafting) => draft(alloc, drafting, world),
        ArchiveCommand::Ask(asking) => ask(alloc, asking, world),
        ArchiveCommand::Take(taking) => take(alloc, taking, world),
    }
}
