//! The file of digests.
ghost use Rattle.std.specs.Prelude.{◌≡◌};
ghost use Rattle.ots_calendar_inputs.specs.Digests.{IsDigestsOf, RefusesDigests};
ghost use Rattle.ots_inputs.specs.Input.{ReadsNamed, map_refusal};
ghost use Rattle.ots_calendar_text.specs.declared.status.DaemonStatus.TheVariants.{BadDigests};

use crate::lines::Digests;
use ots_calendar_text::DaemonStatus;
use ots_inputs::{InputError, Stop, read_file_lines};
use ots_outside::{Leaf, Shelf};
use std::alloc::Global;

/// The same of a run: the first line that is none is a bad line of digests.
fn as_status(error: InputError<u64>) -> InputError<DaemonStatus>
    ensures { result ≡ map_refusal BadDigests error }
{
    match error {
        InputError::NoFile => InputError::NoFile,
        InputError::ReadFault => InputError::ReadFault,
        InputError::Refused(line) => InputError::Refused(DaemonStatus::BadDigests(line)),
        InputError::OutOfMemory => InputError::OutOfMemory,
    }
}

/// The digests of a file: 1 to 65,536 lines, each of two hexadecimal digits for each byte and a line
/// feed. It is read in pieces, and to its first bad line at most.
pub fn read_digests<'a, S: Shelf>(
    alloc: Global,
    name: &'a str,
    shelf: &mut S,
) -> Result<Vec<Leaf>, Stop<'a, DaemonStatus>>
    ensures { ReadsNamed IsDigestsOf RefusesDigests name.entry.now (S.told shelf.old) (S.told shelf.new)
        (S.faults shelf.old) (S.faults shelf.new) result }
{
    match read_file_lines::<Digests, S>(alloc, name, shelf) {
        Ok(leaves) => Ok(leaves),
        Err(error) => Err(Stop {
            name,
            why: as_status(error),
        }),
    }
}
