ghost use Rattle.std.specs.Prelude.{◌≡◌};
ghost use Rattle.std.proofs.Common.{◌∙◌, refl};
ghost use Rattle.ots_outside.specs.Link.{taken_of, SameButTaken};

use crate::{Failed, Link, Sink};

/// A borrowed link, written as a sink.
///
/// A later value is `same` as an earlier one where it borrows the same link, that is the same in its
/// own sense, and has the same bytes left and given. So once the loan has ended, the caller knows
/// the whole link again.
#[derive(Drop)]
pub struct LinkSink<'a, L: Link> {
    /// The link.
    pub link: &'a mut L,
}

impl<'a, L: Link> LinkSink<'a, L> {
    /// A sink that writes to the link.
    pub fn new(link: &'a mut L) -> LinkSink<'a, L>
        ensures same_reference { result.link.ghost_name ≡ link.entry.ghost_name }
        ensures link { result.link.now ≡ link.old }
    {
        LinkSink { link }
    }
}

impl<L: Link> Sink for LinkSink<'_, L> {
    ghost taken = { λ s. taken_of (L.told s.link.now) };

    ghost faults = { λ s. L.faults s.link.now };

    ghost same = { λ s t. (t.link.ghost_name ≡ s.link.ghost_name) × L.same s.link.now t.link.now
        × SameButTaken (L.told s.link.now) (L.told t.link.now) };

    ghost same_refl = { λ s. (refl, L.same_refl s.link.now, refl) };

    ghost same_trans = { λ s t u p q. (q.0 ∙ p.0, L.same_trans s.link.now t.link.now u.link.now p.1 q.1, q.2 ∙ p.2) };

    fn write(&mut self, piece: &[u8]) -> Result<usize, Failed> {
        self.link.write(piece)
    }
}
