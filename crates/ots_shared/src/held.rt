use crate::row::Numbers;
use crate::rule::Place;
use ots_calendar::Book;
use ots_disk::Disk;
use std::marker::Model;
use std::snapshot::Snapshot;

/// The book while a caller holds it, with its numbers as it was found. It can't be dropped: only
/// `release` takes it.
pub struct Held<D: Disk> {
    pub(crate) book: Book<D>,
    pub(crate) place: Place<D>,
    pub(crate) number: u64,
    pub(crate) numbers: Numbers,
    pub(crate) found: Snapshot<Book<D>>,
}

impl<D: Disk> Model for Held<D> {
    ghost use Rattle.ots_shared.specs.Told.{HeldTold};
    ghost use Rattle.ots_shared.specs.Seats.{held_told, IsOut};

    ghost Value = { HeldTold D };

    ghost view = { λ h. held_told h.place h.number h.found.value h.book };

    ghost invariant = { λ h. IsOut D.faults h.place.me h.numbers h.found.value };
}
