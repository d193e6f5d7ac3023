ghost use Rattle.std.specs.Prelude.{◌≡◌, ◌<◌, [], true, false};
ghost use Rattle.ots_shared.specs.Seats.{pass_told, view_of, IsFree};

use crate::row::Rows;
use crate::rule::Place;
use crate::view::View;
use atomic_table::Badge;
use ots_disk::Disk;
use std::marker::Model;
use std::mem;

/// A caller's token: its seat, and the rows of its latest holds.
///
/// Contracts see for how many callers it stands, the records that it has seen, the greatest count
/// that it was told, whether it holds the book, its rows, at most three with the oldest first, and
/// how many of its holds were released, which stays at 2^64 - 1.
#[derive(Drop)]
pub struct Pass {
    // Blank while a hold has the seat.
    badge: Badge<View>,
    pub(crate) number: u64,
    pub(crate) rows: Rows,
    pub(crate) made: u64,
}

impl Model for Pass {
    ghost use Rattle.ots_shared.specs.Told.{PassTold};
    ghost use Rattle.ots_shared.specs.Seats.{pass_told, head_of, is_none, IsSettled};

    ghost Value = { PassTold };

    ghost view = { λ p. pass_told p.badge.table_id (head_of p.badge.views) (is_none p.badge.views) p.number p.rows
        p.made };

    ghost invariant = { λ p. IsSettled p.badge.views };
}

impl Pass {
    /// The pass of a seat.
    pub(crate) fn of<D: Disk>(place: Place<D>, rows: Rows, made: u64) -> Pass
        requires free { IsFree place.me.0 }
        requires none { place.me.1 ≡ [] }
        ensures { result ≡ pass_told place.table_id place.me.0 false 0 rows made }
    {
        Pass {
            badge: place.into_badge(),
            number: 0,
            rows,
            made,
        }
    }

    /// Takes the seat out.
    pub(crate) fn rise<D: Disk>(&mut self) -> Place<D>
        requires { self.old.holding ≡ false }
        ensures table { result.table_id ≡ self.old.seat.table }
        ensures me { result.me ≡ (view_of self.old, []) }
        ensures share { 0 < self.old.seat.share }
        ensures out { self.new.holding ≡ true }
        ensures rest { (self.new.number ≡ self.old.number) × (self.new.holds ≡ self.old.holds)
            × (self.new.made ≡ self.old.made) }
    {
        mem::replace(&mut self.badge, Badge::blank()).into_seat()
    }

    /// Puts the seat back.
    pub(crate) fn sit<D: Disk>(&mut self, place: Place<D>)
        requires free { IsFree place.me.0 }
        requires none { place.me.1 ≡ [] }
        ensures { self.new ≡ pass_told place.table_id place.me.0 false self.old.number self.old.holds self.old.made }
    {
        self.badge = place.into_badge();
    }
}
