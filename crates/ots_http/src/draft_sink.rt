//! A tree in the text of a message.
ghost use Rattle.std.specs.Prelude.{◌≡◌, ◌+◌, ◌<◌, ◌++◌, length};
ghost use Rattle.ots_tree.specs.Wire.{spelled};
ghost use Rattle.ots_http.specs.declared.draft.TheConstants.{ROOM};

use crate::draft::{Draft, ROOM};
use ots_outside::{Count, Failed, Sink};
use ots_tree::{Tree, spell_to};

/// The borrowed text of a message as a sink. A write takes as much as there is room for, and fails only
/// where there is none.
///
/// A later value is `same` as an earlier one where it borrows the same text, which has grown since, and
/// where no fault was counted or the text fills its room.
#[derive(Drop)]
struct DraftSink<'a> {
    draft: &'a mut Draft<ROOM>,
    faults: Count,
}

impl<'a> DraftSink<'a> {
    /// A sink that adds to the text, and has counted no fault.
    fn new(draft: &'a mut Draft<ROOM>) -> DraftSink<'a>
        ensures same_reference { result.draft.ghost_name ≡ draft.entry.ghost_name }
        ensures draft { result.draft.now ≡ draft.old }
        ensures faults { result.faults ≡ 0 }
    {
        DraftSink {
            draft,
            faults: Count::new(),
        }
    }
}

impl Sink for DraftSink<'_> {
    ghost use Rattle.std.specs.Prelude.{Some, length};
    ghost use Rattle.std.proofs.Common.{◌∙◌, refl};
    ghost use Rattle.ots_http.specs.declared.draft.TheConstants.{ROOM};
    ghost use Rattle.ots_http.specs.DraftRoom.{FailsFull, FailsFull-refl, FailsFull-trans};

    ghost taken = { λ s. Some s.draft.now };

    ghost faults = { λ s. s.faults };

    ghost same = { λ s t. (t.draft.ghost_name ≡ s.draft.ghost_name)
        × FailsFull ROOM (length s.draft.now) (length t.draft.now) s.faults t.faults };

    ghost same_refl = { λ s. (refl, FailsFull-refl ROOM (length s.draft.now) s.faults) };

    ghost same_trans = { λ s t u p q. (
      q.0 ∙ p.0,
      FailsFull-trans ROOM (length s.draft.now) (length t.draft.now) (length u.draft.now) s.faults t.faults u.faults p.1
          q.1,
    ) };

    fn write(&mut self, piece: &[u8]) -> Result<usize, Failed> {
        let count = piece.len().min(self.draft.room());
        if count == 0 && !piece.is_empty() {
            self.faults.rise();
            return Err(Failed);
        }
        self.draft.add(&piece[..count]);
        Ok(count)
    }
}

/// Adds the spelling of a tree to a text that has room for more than that.
pub(crate) fn add_tree(draft: &mut Draft<ROOM>, tree: &Tree)
    requires { length draft.old + length (spelled tree.now) < ROOM }
    ensures { draft.new ≡ draft.old ++ spelled tree.now }
{
    match spell_to(tree, &mut DraftSink::new(draft)) {
        Ok(()) => {}
        Err(_) => unreachable!(),
    }
}
