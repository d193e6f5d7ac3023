//! The record of the calls that a form makes, which only clauses read.
ghost use Rattle.std.specs.Prelude.{◌≡◌, List, [], ◌∷◌};
ghost use Rattle.std.specs.Borrow.{ftrue};
ghost use Rattle.ots_real.specs.CallRecord.{Note};

use std::marker::{Model, PhantomData};

/// The calls that were made of something outside, the newest first, each noted by numbers and
/// bytes of which the form that holds the record says what they mean. It takes no memory.
#[derive(Drop)]
pub struct CallRecord {
    marker: PhantomData<u8>,
    pub ghost notes: { List Note },
}

impl Model for CallRecord {
    ghost also_owns = { λ _. ftrue };
}

// There is nothing in it that a thread could share.
unsafe impl Send for CallRecord {}

impl CallRecord {
    /// The record of what no call was made of yet.
    pub fn new() -> CallRecord
        ensures { result.notes ≡ [] }
    {
        CallRecord {
            marker: PhantomData,
        }
    }

    /// Notes a call.
    pub fn note(&mut self, _numbers: &[u64], _bytes: &[u8])
        ensures { self.new.notes ≡ record { numbers = _numbers.now; bytes = _bytes.now } ∷ self.old.notes }
    {}
}
