ghost use Rattle.std.specs.Prelude.{◌≡◌};
ghost use Rattle.std.proofs.Common.{◌∙◌, refl};
ghost use Rattle.ots_outside.specs.Dialer.{conversation_told, IsConversation, SameButConversation};
ghost use Rattle.ots_outside.specs.Dialer.{SameButConversation-refl, SameButConversation-trans};

use crate::{Dialer, Failed, Link, Slot};

/// A connected slot of a borrowed dialer, as a link.
///
/// A later value is `same` as an earlier one where it borrows the same dialer for the same slot, and
/// all that the dialer tells, but for this conversation, is as it was. So once the loan has ended,
/// the caller knows the whole dialer again.
#[derive(Drop)]
pub struct DialedLink<'a, D: Dialer> {
    /// The dialer.
    pub dialer: &'a mut D,
    /// The slot, which was connected and not closed.
    pub slot: Slot,
    ghost is_conversation: { IsConversation (D.told dialer.now) slot.0 },
}

impl<'a, D: Dialer> DialedLink<'a, D> {
    /// The slot's conversation as a link. The slot is connected, and where what was sent is told, its
    /// entry stands there, as after every `connect`.
    pub fn new(dialer: &'a mut D, slot: Slot) -> DialedLink<'a, D>
        requires { IsConversation (D.told dialer.old) slot.0 }
        ensures same_reference { result.dialer.ghost_name ≡ dialer.entry.ghost_name }
        ensures dialer { result.dialer.now ≡ dialer.old }
        ensures slot { result.slot ≡ slot }
    {
        DialedLink { dialer, slot }
    }
}

impl<D: Dialer> Link for DialedLink<'_, D> {
    ghost told = { λ s. conversation_told (D.told s.dialer.now) s.slot.0 };

    ghost faults = { λ s. D.faults s.dialer.now };

    ghost same = { λ s t. (t.dialer.ghost_name ≡ s.dialer.ghost_name) × (t.slot.0 ≡ s.slot.0)
        × SameButConversation s.slot.0 (D.told s.dialer.now) (D.told t.dialer.now) };

    ghost same_refl = { λ s. (refl, refl, SameButConversation-refl s.slot.0 (D.told s.dialer.now)) };

    ghost same_trans = { λ s t u p q. (
      q.0 ∙ p.0,
      q.1 ∙ p.1,
      SameButConversation-trans s.slot.0 t.slot.0 (D.told s.dialer.now) (D.told t.dialer.now) (D.told u.dialer.now) p.1
          p.2 q.2,
    ) };

    fn read(&mut self, buf: &mut [u8]) -> Result<usize, Failed> {
        self.dialer.read(self.slot, buf)
    }

    fn write(&mut self, piece: &[u8]) -> Result<usize, Failed> {
        self.dialer.write(self.slot, piece)
    }

    fn finish(&mut self) {}
}
