//! Making files.
ghost use Rattle.ots_archive_steps.specs.Making.{MakesNew};

use crate::printing::refuse;
use ots_archive_text::ArchiveStatus;
use ots_archive_world::World;
use ots_outputs::{Contents, OutputError};

/// Makes a file that holds these contents: whether it was made, for one that is there already stays.
///
/// Where it can't be written the run ends, with the line that tells so; it holds a prefix of the contents then, or isn't
/// there. `OutOfMemory` prints nothing, and nothing was made.
pub fn make<C: Contents, W: World>(
    name: &str,
    contents: &C,
    world: &mut W,
) -> Result<bool, ArchiveStatus>
    ensures { MakesNew name.now (C.bytes contents.now) (W.told world.old) (W.told world.new) result }
{
    match world.make(name, contents) {
        Ok(()) => Ok(true),
        Err(OutputError::Exists) => Ok(false),
        Err(OutputError::WriteFault) => {
            Err(refuse(name.as_bytes(), ArchiveStatus::WriteFault, world))
        }
        Err(OutputError::OutOfMemory) => Err(ArchiveStatus::OutOfMemory),
    }
}
