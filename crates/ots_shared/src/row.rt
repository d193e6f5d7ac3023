//! The numbers of a book, and the rows of a caller's latest holds.
ghost use Rattle.std.specs.Prelude.{◌≡◌, [], ◌∷◌, ◌++◌, length};
ghost use Rattle.ots_shared.specs.Rows.{numbers, latest, row_of};

use ots_calendar::Book;
use ots_disk::Disk;
use std::marker::Model;

/// The numbers of one hold, of the book as it was found and as it was left.
#[derive(Clone, Copy, Debug, PartialEq, Eq)]
pub struct Row {
    /// How many records there were.
    pub records_found: u64,
    pub records_left: u64,
    /// The place of the journal's closed gate, in bytes.
    pub gate_found: u64,
    pub gate_left: u64,
    /// How often the disk had failed.
    pub faults_found: u64,
    pub faults_left: u64,
    /// How many tickets waited.
    pub waiting_found: u64,
    pub waiting_left: u64,
}

/// How many records a book has.
pub(crate) fn count_records<D: Disk>(book: &Book<D>) -> u64
    ensures { result ≡ length book.now.store.records }
{
    book.store().entries()
}

/// The numbers of a book.
#[derive(Clone, Copy)]
pub(crate) struct Numbers {
    records: u64,
    gate: u64,
    faults: u64,
    waiting: u64,
}

impl Numbers {
    pub(crate) fn of<D: Disk>(book: &Book<D>) -> Numbers
        ensures { result ≡ numbers D.faults book.now }
    {
        Numbers {
            records: count_records(book),
            gate: book.gate(),
            faults: book.faults(),
            waiting: book.waiting(),
        }
    }
}

impl Row {
    pub(crate) fn of(found: Numbers, left: Numbers) -> Row
        ensures { result ≡ row_of found left }
    {
        Row {
            records_found: found.records,
            records_left: left.records,
            gate_found: found.gate,
            gate_left: left.gate,
            faults_found: found.faults,
            faults_left: left.faults,
            waiting_found: found.waiting,
            waiting_left: left.waiting,
        }
    }
}

/// At most three rows, the oldest first.
#[derive(Drop)]
pub(crate) struct Rows {
    rows: [Row; 3],
    count: usize,
}

impl Model for Rows {
    ghost use Rattle.std.specs.Prelude.{◌≤◌, List, take};
    ghost use Rattle.ots_shared.specs.declared.row.Row.{Row};

    ghost Value = { List Row };

    ghost view = { λ r. take r.count r.rows };

    ghost invariant = { λ r. r.count ≤ 3 };
}

const BLANK: Row = Row {
    records_found: 0,
    records_left: 0,
    gate_found: 0,
    gate_left: 0,
    faults_found: 0,
    faults_left: 0,
    waiting_found: 0,
    waiting_left: 0,
};

impl Rows {
    pub(crate) fn none() -> Rows
        ensures { result ≡ [] }
    {
        Rows {
            rows: [BLANK; 3],
            count: 0,
        }
    }

    /// Adds a row after the others. Of four the oldest goes.
    pub(crate) fn add(&mut self, row: Row)
        ensures { self.new ≡ latest (self.old ++ row ∷ []) }
    {
        if self.count < 3 {
            self.rows[self.count] = row;
            self.count += 1;
        } else {
            self.rows = [self.rows[1], self.rows[2], row];
        }
    }
}
