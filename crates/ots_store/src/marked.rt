//! A list whose last items are not acknowledged yet.
ghost use Rattle.std.specs.Prelude.{◌≡◌, ◌≤◌, ◌<◌, ◌+◌, ◌++◌, ◌∷◌, [], ◌^◌, length, IsOk, IfOk, OnOk, OnErr};
ghost use Rattle.std.specs.Prelude.{MatchOption};

use ots_base::OutOfMemory;
use std::alloc::Global;
use std::marker::Model;

/// Items that are acknowledged, and after them some that are in flight.
#[derive(Drop)]
pub struct Marked<T: Drop> {
    items: Vec<T>,
    kept: usize,
}

impl<T: Drop> Model for Marked<T> {
    ghost use Rattle.std.specs.Prelude.{◌≤◌, ◌-◌, take, drop, length, vec_len, vec_capacity};
    ghost use Rattle.ots_store.specs.Marked.{MarkedTold};

    ghost Value = { MarkedTold T };

    ghost view = { λ m. record {
      kept = take m.kept m.items.items;
      flight = drop m.kept m.items.items;
      spare = vec_capacity m.items - vec_len m.items;
    } };

    ghost invariant = { λ m. m.kept ≤ length m.items.items };
}

impl<T: Drop> Marked<T> {
    /// No item.
    pub fn new(alloc: Global) -> Marked<T>
        ensures kept { result.kept ≡ [] }
        ensures flight { result.flight ≡ [] }
    {
        Marked {
            items: Vec::new(alloc),
            kept: 0,
        }
    }

    /// The acknowledged items.
    pub fn kept(&self) -> &[T]
        ensures { result.now ≡ self.now.kept }
    {
        &self.items.as_slice()[..self.kept]
    }

    /// How many items are in flight.
    pub fn in_flight(&self) -> usize
        ensures count { result ≡ length self.now.flight }
        ensures bound { result < 2 ^ 63 }
    {
        self.items.len() - self.kept
    }

    /// Takes the memory for some items more.
    pub fn reserve(&mut self, more: usize) -> Result<(), OutOfMemory>
        ensures kept { self.new.kept ≡ self.old.kept }
        ensures flight { self.new.flight ≡ self.old.flight }
        ensures ok { OnOk result (more ≤ self.new.spare) }
    {
        self.items.reserve(more)?;
        Ok(())
    }

    /// Adds an item in flight. It takes memory only where none is spare.
    pub fn push(&mut self, item: T) -> Result<(), OutOfMemory>
        ensures kept { self.new.kept ≡ self.old.kept }
        ensures ok { OnOk result (self.new.flight ≡ self.old.flight ++ item ∷ []) }
        ensures err { OnErr result (self.new.flight ≡ self.old.flight) }
        ensures not_refused { 0 < self.old.spare → IsOk result }
    {
        self.items.push(item)?;
        Ok(())
    }

    /// Acknowledges all.
    pub fn keep(&mut self)
        ensures kept { self.new.kept ≡ self.old.kept ++ self.old.flight }
        ensures flight { self.new.flight ≡ [] }
        ensures spare { self.new.spare ≡ self.old.spare }
    {
        self.kept = self.items.len();
    }

    /// Takes all items in flight away.
    pub fn forget(&mut self)
        ensures kept { self.new.kept ≡ self.old.kept }
        ensures flight { self.new.flight ≡ [] }
        ensures spare { self.old.spare ≤ self.new.spare }
    {
        self.items.truncate(self.kept);
    }
}
