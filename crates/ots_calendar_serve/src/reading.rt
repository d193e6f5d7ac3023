//! Reading what serving names.
ghost use Rattle.ots_calendar_words.specs.Words.{read_serving};
ghost use Rattle.ots_calendar_serve.specs.ServeReading.{ReadsService};

use ots_calendar_endings::DaemonStatus;
use ots_calendar_inputs::{read_key, read_uri};
use ots_calendar_words::Serving;
use ots_connection::Service;
use ots_inputs::Stop;
use ots_outside::Shelf;
use std::alloc::Global;

/// What connections are served by: the address is read first, then the key file.
pub fn read_service<'a, S: Shelf>(
    alloc: Global,
    asked: Serving<'a>,
    shelf: &mut S,
) -> Result<Service, Stop<'a, DaemonStatus>>
    ensures { ReadsService (read_serving asked.entry) (S.told shelf.old) (S.told shelf.new)
        (S.faults shelf.old) (S.faults shelf.new) result }
{
    match read_uri(alloc, asked.uri) {
        Ok(uri) => match read_key(alloc, asked.key, shelf) {
            Ok(key) => Ok(Service { key, uri }),
            Err(stop) => Err(stop),
        },
        Err(why) => Err(Stop { name: "", why }),
    }
}
