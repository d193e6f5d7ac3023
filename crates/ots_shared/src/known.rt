use ots_journal::Entry;
use std::collections::LinkedList;
use std::marker::Model;

/// Records that a caller knows of, as the entries that spell them. No value of it is made.
pub(crate) struct Known {
    entries: LinkedList<Entry>,
}

impl Model for Known {
    ghost use Rattle.std.specs.Prelude.{List};
    ghost use Rattle.ots_store.specs.Order.{records_of};
    ghost use Rattle.ots_store.specs.Records.{Record};

    ghost Value = { List Record };

    ghost view = { λ k. records_of k.entries };
}
