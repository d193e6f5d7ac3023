//! What every run leaves as it was.
ghost use Rattle.std.specs.Prelude.{ℕ, List};
ghost use Rattle.ots_archive.specs.Run.{Ran};
ghost use Rattle.ots_archive.specs.Stays.{StaysUnder};
ghost use Rattle.ots_archive_text.specs.declared.status.ArchiveStatus.{ArchiveStatus};
ghost use Rattle.ots_archive_world.specs.Told.{Told};

/// Whatever the words are and however the run ends, each file that was there holds what it held: only names that were not
/// there are made.
pub fn files_stay()
    ensures { (words : List (List ℕ)) (old new : Told) (s : ArchiveStatus) → Ran words old new s
        → StaysUnder old.shelf new.shelf }
{}
