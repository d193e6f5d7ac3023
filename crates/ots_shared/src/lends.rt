//! The book of a hold, lent. Its clause names the row of `Held`, which the file that declares `Held`
//! can't import.
ghost use Rattle.std.specs.Prelude.{◌≡◌};
ghost use Rattle.std.specs.Borrow.{Lends, sem};
ghost use Rattle.ots_calendar.specs.contracts.book.Book as kept;
ghost use Rattle.ots_shared.specs.Told.{with_book};
ghost use Rattle.ots_shared.specs.contracts.held.Held.{the_row};

use crate::held::Held;
use ots_calendar::Book;
use ots_disk::Disk;

impl<D: Disk> Held<D> {
    /// Lends the book. When the borrow ends, the hold has the book as it was left.
    pub fn book(&mut self) -> &mut Book<D>
        ensures* writes_back { sem 𝓛 (Lends (the_row D.row D.Disk) (kept.the_row D.row D.Disk) self.entry result
            (with_book self.old)) }
        ensures value { result.now ≡ self.old.book }
    {
        &mut self.book
    }
}
