//! What lies outside a run.

use ots_disk::Disk;
use ots_outside::{Shelf, Sink};

/// What lies outside a run, as contracts see it: its disk, the files that it reads, and its sink.
pub trait Outside {
    ghost use Rattle.ots_calendar_endings.specs.Told.{Told};

    /// What is told of it at a moment.
    ghost told: { Self → Told };
}

impl<D: Disk, K: Sink> Outside for (D, K) {
    ghost use Rattle.ots_calendar_endings.specs.Told.{no_faults, no_files};

    ghost told = { λ o. record {
      bytes = D.bytes o.0;
      images = D.images o.0;
      clock = D.clock o.0;
      images_since = D.images_since o.0;
      disk_faults = D.faults o.0;
      shelf = no_files;
      shelf_faults = no_faults;
      taken = K.taken o.1;
      sink_faults = K.faults o.1;
    } };
}

impl<D: Disk, S: Shelf, K: Sink> Outside for (D, S, K) {
    ghost told = { λ o. record {
      bytes = D.bytes o.0;
      images = D.images o.0;
      clock = D.clock o.0;
      images_since = D.images_since o.0;
      disk_faults = D.faults o.0;
      shelf = S.told o.1;
      shelf_faults = S.faults o.1;
      taken = K.taken o.2;
      sink_faults = K.faults o.2;
    } };
}
