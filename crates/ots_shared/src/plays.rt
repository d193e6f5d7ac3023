//! What each step on the table tells the caller that makes it.
ghost use Rattle.ots_shared.specs.Steps.{Draws, Looks, Publishes, Serves, Counts, Settles, lessened, single, both};
ghost use Rattle.ots_shared.specs.Steps.{nobody};

use crate::view::View;
use atomic_table::{Join, Play, Split};
use ots_calendar::Book;
use ots_disk::Disk;

/// Draws the next number.
pub(crate) struct Draw;

impl<D: Disk> Play<Option<Book<D>>, View> for Draw {
    ghost then = { Draws };
}

/// Looks at the number served, and takes the book where it is the caller's own.
pub(crate) struct Look;

impl<D: Disk> Play<Option<Book<D>>, View> for Look {
    ghost then = { Looks };
}

/// Tells the other callers how many records the book has now.
pub(crate) struct Publish;

impl<D: Disk> Play<Option<Book<D>>, View> for Publish {
    ghost then = { Publishes };
}

/// Gives the book back, and serves the next number.
pub(crate) struct Serve;

impl<D: Disk> Play<Option<Book<D>>, View> for Serve {
    ghost then = { Serves };
}

/// Loads the count of records.
pub(crate) struct Count;

impl<D: Disk> Play<Option<Book<D>>, View> for Count {
    ghost then = { Counts };
}

/// Finds the longer of the lists that two joined passes had seen.
pub(crate) struct Settle;

impl<D: Disk> Play<Option<Book<D>>, View> for Settle {
    ghost then = { Settles };
}

/// Cuts a share of 1 off.
pub(crate) struct Cut;

impl Split<View> for Cut {
    ghost left = { lessened };

    ghost right = { single };
}

/// Puts two callers' knowledge together.
pub(crate) struct Glue;

impl Join<View> for Glue {
    ghost both = { both };

    ghost spent = { nobody };
}
