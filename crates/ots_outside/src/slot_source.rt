ghost use Rattle.std.specs.Prelude.{◌≡◌, IsTrue};
ghost use Rattle.std.proofs.Common.{◌∙◌, refl};
ghost use Rattle.ots_outside.specs.Shelf.{is_reading, left_of, OnlyReading, OnlyReading-refl, OnlyReading-trans};
ghost use Rattle.ots_outside.specs.Shelf.{SameButSlot, SameButSlot-refl, SameButSlot-trans};

use crate::{Failed, Shelf, Slot, Source};

/// An open slot of a borrowed shelf, read as a source.
///
/// A later value is `same` as an earlier one where it borrows the same shelf for the same slot, and
/// all that the shelf tells, but for this slot, is as it was; no fault was
/// counted but of reading. So once the loan has ended, the caller knows the whole shelf
/// again.
#[derive(Drop)]
pub struct SlotSource<'a, S: Shelf> {
    /// The shelf.
    pub shelf: &'a mut S,
    /// The slot, which was opened and not closed.
    pub slot: Slot,
    ghost is_open: { IsTrue (is_reading ((S.told shelf.now).slots slot.0)) },
}

impl<'a, S: Shelf> SlotSource<'a, S> {
    /// A source of what the slot has left.
    pub fn new(shelf: &'a mut S, slot: Slot) -> SlotSource<'a, S>
        requires { IsTrue (is_reading ((S.told shelf.old).slots slot.0)) }
        ensures same_reference { result.shelf.ghost_name ≡ shelf.entry.ghost_name }
        ensures shelf { result.shelf.now ≡ shelf.old }
        ensures slot { result.slot ≡ slot }
    {
        SlotSource { shelf, slot }
    }
}

impl<S: Shelf> Source for SlotSource<'_, S> {
    ghost left = { λ s. left_of ((S.told s.shelf.now).slots s.slot.0) };

    ghost faults = { λ s. (S.faults s.shelf.now).reading };

    ghost same = { λ s t. (t.shelf.ghost_name ≡ s.shelf.ghost_name) × (t.slot.0 ≡ s.slot.0)
        × OnlyReading (S.faults s.shelf.now) (S.faults t.shelf.now)
        × SameButSlot s.slot.0 (S.told s.shelf.now) (S.told t.shelf.now) };

    ghost same_refl = { λ s. (
      refl,
      refl,
      OnlyReading-refl (S.faults s.shelf.now),
      SameButSlot-refl s.slot.0
          (S.told s.shelf.now),
    ) };

    ghost same_trans = { λ s t u p q. (
      q.0 ∙ p.0,
      q.1 ∙ p.1,
      OnlyReading-trans (S.faults s.shelf.now) (S.faults t.shelf.now) (S.faults u.shelf.now) p.2 q.2,
      SameButSlot-trans s.slot.0 t.slot.0 (S.told s.shelf.now) (S.told t.shelf.now) (S.told u.shelf.now) p.1 p.3 q.3,
    ) };

    fn read(&mut self, buf: &mut [u8]) -> Result<usize, Failed> {
        self.shelf.read(self.slot, buf)
    }
}
