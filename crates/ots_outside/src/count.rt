ghost use Rattle.std.specs.Prelude.{◌≡◌, ◌≤◌, ℕ};
ghost use Rattle.ots_base.specs.Cause.{Rose, one_more};

use std::marker::Model;

/// A count from 0, which stays once it is at 2^64 - 1.
#[derive(Drop)]
pub struct Count {
    value: u64,
}

impl Model for Count {
    ghost Value = { ℕ };

    ghost view = { λ count. count.value };
}

impl Count {
    /// Nothing is counted yet.
    pub fn new() -> Count
        ensures { result ≡ 0 }
    {
        Count { value: 0 }
    }

    /// The count.
    pub fn value(&self) -> u64
        ensures { result ≡ self.now }
    {
        self.value
    }

    /// The count after the next rise.
    pub fn next(&self) -> u64
        ensures { result ≡ one_more self.now }
    {
        self.value.saturating_add(1)
    }

    /// Counts one more.
    pub fn rise(&mut self)
        ensures counted { self.new ≡ one_more self.old }
        ensures later { self.old ≤ self.new }
        ensures rose { Rose self.old self.new }
    {
        self.value = self.value.saturating_add(1);
    }
}
