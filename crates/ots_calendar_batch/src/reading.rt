//! Reading what a batch names.
ghost use Rattle.ots_calendar_batch.specs.Reading.{ReadsFiles, ReadsRound};
ghost use Rattle.ots_calendar_words.specs.Words.{read_batch};

use crate::round::Round;
use ots_attest::Uri;
use ots_calendar_endings::DaemonStatus;
use ots_calendar_inputs::{read_digests, read_key, read_uri};
use ots_calendar_words::Batch;
use ots_inputs::Stop;
use ots_outside::Shelf;
use std::alloc::Global;

/// What a batch puts: the address is read first, then the key file, then the file of digests.
pub fn read_round<'a, S: Shelf>(
    alloc: Global,
    asked: Batch<'a>,
    shelf: &mut S,
) -> Result<Round, Stop<'a, DaemonStatus>>
    ensures { ReadsRound (read_batch asked.entry) (S.told shelf.old) (S.told shelf.new)
        (S.faults shelf.old) (S.faults shelf.new) result }
{
    match read_uri(alloc, asked.uri) {
        Ok(uri) => read_files(alloc, uri, asked, shelf),
        Err(why) => Err(Stop { name: "", why }),
    }
}

/// Its files.
fn read_files<'a, S: Shelf>(
    alloc: Global,
    uri: Uri,
    asked: Batch<'a>,
    shelf: &mut S,
) -> Result<Round, Stop<'a, DaemonStatus>>
    ensures { ReadsFiles (read_batch asked.entry) uri (S.told shelf.old) (S.told shelf.new)
        (S.faults shelf.old) (S.faults shelf.new) result }
{
    match read_key(alloc, asked.key, shelf) {
        Ok(key) => match read_digests(alloc, asked.digests, shelf) {
            Ok(digests) => Ok(Round { key, uri, digests }),
            Err(stop) => Err(stop),
        },
        Err(stop) => Err(stop),
    }
}
