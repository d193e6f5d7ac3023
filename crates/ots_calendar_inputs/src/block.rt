//! The block file.

ghost use Rattle.ots_calendar_inputs.specs.Block.{GivesBlock, RefusesBlock};
ghost use Rattle.ots_inputs.specs.File.{IsWithin, MeansInput};
ghost use Rattle.ots_inputs.specs.Input.{ReadsNamed};
ghost use Rattle.ots_base.specs.declared.limits.TheConstants.{MAX_PROOF_FILE};

use ots_base::MAX_PROOF_FILE;
use ots_block::{Block, BlockError};
use ots_calendar_text::DaemonStatus;
use ots_inputs::{InputError, Stop, TooBig, read_file};
use ots_outside::Shelf;
use std::alloc::Global;

/// The block that a file is, of at most 4,194,304 bytes.
pub fn read_block<'a, S: Shelf>(
    alloc: Global,
    name: &'a str,
    shelf: &mut S,
) -> Result<Block, Stop<'a, DaemonStatus>>
    ensures { ReadsNamed GivesBlock RefusesBlock name.entry.now (S.told shelf.old) (S.told shelf.new)
        (S.faults shelf.old) (S.faults shelf.new) result }
{
    let read = read_file(alloc, name, MAX_PROOF_FILE as u64, shelf);
    match block_of(alloc, read) {
        Ok(block) => Ok(block),
        Err(why) => Err(Stop { name, why }),
    }
}

/// The block that these bytes are, of which there are at most 4,194,304.
fn block_of(
    alloc: Global,
    read: Result<Vec<u8>, InputError<TooBig>>,
) -> Result<Block, InputError<DaemonStatus>>
    requires { IsWithin MAX_PROOF_FILE read }
    ensures { MeansInput GivesBlock RefusesBlock MAX_PROOF_FILE read result }
{
    match read {
        Ok(bytes) => match Block::read(alloc, &bytes) {
            Ok(block) => Ok(block),
            Err(BlockError::BadBlock { place, reason }) => {
                Err(InputError::Refused(DaemonStatus::BadBlock { place, reason }))
            }
            Err(BlockError::OutOfMemory) => Err(InputError::OutOfMemory),
        },
        Err(error) => Err(error.refused_as(DaemonStatus::TooBig)),
    }
}
