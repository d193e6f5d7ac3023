use crate::view::View;
use atomic_table::{Seat, Shared, Table, TableRule};
use ots_calendar::Book;
use ots_disk::Disk;
use std::alloc::Global;
use std::marker::PhantomData;
use std::snapshot::Snapshot;

/// How many callers there are, and the book as it was shared.
#[derive(Drop)]
pub(crate) struct Terms<B> {
    pub(crate) callers: u64,
    pub(crate) book: Snapshot<B>,
}

/// The rule of the table: numbers are served in turn, and the book is out with the one served.
pub(crate) struct InTurn<D> {
    disk: PhantomData<D>,
}

impl<D: Disk> TableRule<Option<Book<D>>, View, Terms<Book<D>>> for InTurn<D> {
    ghost use Rattle.ots_shared.specs.Rule.{IsKept};
    ghost use Rattle.ots_shared.specs.Steps.{opener};

    ghost holds = { λ key. IsKept key.callers key.book.value.store.journal.limit };

    ghost first = { λ key. opener key.callers key.book.value };
}

/// The table with its memory, what its callers share of it, and the seat of one of them.
pub(crate) type Board<D> = Table<Option<Book<D>>, View, Terms<Book<D>>, InTurn<D>, Global>;

pub(crate) type Top<D> = Shared<Option<Book<D>>, View, Terms<Book<D>>, InTurn<D>>;

pub(crate) type Place<D> = Seat<Option<Book<D>>, View>;
