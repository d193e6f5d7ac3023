ghost use Rattle.std.specs.Prelude.{◌≡◌, IsTrue};
ghost use Rattle.std.proofs.Common.{◌∙◌, refl};
ghost use Rattle.ots_outside.specs.Shelf.{is_writing, OnlyWriting, OnlyWriting-refl, OnlyWriting-trans};
ghost use Rattle.ots_outside.specs.Written.{slot_bytes, SameButSlotBytes, SameButSlotBytes-refl};
ghost use Rattle.ots_outside.specs.Written.{SameButSlotBytes-trans};

use crate::{Failed, Shelf, Sink, Slot};

/// A created slot of a borrowed shelf, written as a sink.
///
/// A later value is `same` as an earlier one where it borrows the same shelf for the same slot, and
/// all that the shelf tells, but for the bytes of this slot's name, is as it was; no
/// fault was counted but of writing. So once the loan has ended, the caller knows
/// the whole shelf again.
#[derive(Drop)]
pub struct SlotSink<'a, S: Shelf> {
    /// The shelf.
    pub shelf: &'a mut S,
    /// The slot, which was created and not closed.
    pub slot: Slot,
    ghost is_open: { IsTrue (is_writing ((S.told shelf.now).slots slot.0)) },
}

impl<'a, S: Shelf> SlotSink<'a, S> {
    /// A sink that writes to the name of the slot.
    pub fn new(shelf: &'a mut S, slot: Slot) -> SlotSink<'a, S>
        requires { IsTrue (is_writing ((S.told shelf.old).slots slot.0)) }
        ensures same_reference { result.shelf.ghost_name ≡ shelf.entry.ghost_name }
        ensures shelf { result.shelf.now ≡ shelf.old }
        ensures slot { result.slot ≡ slot }
    {
        SlotSink { shelf, slot }
    }
}

impl<S: Shelf> Sink for SlotSink<'_, S> {
    ghost taken = { λ s. slot_bytes (S.told s.shelf.now) s.slot.0 };

    ghost faults = { λ s. (S.faults s.shelf.now).writing };

    ghost same = { λ s t. (t.shelf.ghost_name ≡ s.shelf.ghost_name) × (t.slot.0 ≡ s.slot.0)
        × OnlyWriting (S.faults s.shelf.now) (S.faults t.shelf.now)
        × SameButSlotBytes s.slot.0 (S.told s.shelf.now) (S.told t.shelf.now) };

    ghost same_refl = { λ s. (
      refl,
      refl,
      OnlyWriting-refl (S.faults s.shelf.now),
      SameButSlotBytes-refl s.slot.0
          (S.told s.shelf.now),
    ) };

    ghost same_trans = { λ s t u p q. (
      q.0 ∙ p.0,
      q.1 ∙ p.1,
      OnlyWriting-trans (S.faults s.shelf.now) (S.faults t.shelf.now) (S.faults u.shelf.now) p.2 q.2,
      SameButSlotBytes-trans s.slot.0 t.slot.0 (S.told s.shelf.now) (S.told t.shelf.now) (S.told u.shelf.now) p.1 p.3
          q.3,
    ) };

    fn write(&mut self, piece: &[u8]) -> Result<usize, Failed> {
        self.shelf.write(self.slot, piece)
    }
}
