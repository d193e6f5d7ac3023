//! One conversation with a calendar, and what comes of it.
ghost use Rattle.std.specs.Prelude.{◌≤◌, ◌∷◌, [], IfOk, OnErr};
ghost use Rattle.ots_asking.specs.Conversation.{Converses, ConverseUpTo};
ghost use Rattle.ots_asking.specs.Outcome.{IsSoundOutcome};
ghost use Rattle.ots_base.specs.declared.limits.TheConstants.{MAX_MESSAGE, MAX_OPERATIONS};

use crate::outcome::{Outcome, outcome_of};
use ots_base::OutOfMemory;
use ots_http::{Address, Asked};
use ots_outside::Dialer;
use ots_tree::Shape;
use std::alloc::Global;

/// Asks a calendar in a conversation of its own. What it answers is to stand below a message and
/// operations of this shape.
pub fn converse<D: Dialer>(
    alloc: Global,
    dialer: &mut D,
    address: &Address,
    asked: &Asked,
    shape: Shape,
) -> Result<Outcome, OutOfMemory>
    requires least { 1 ≤ shape.length }
    requires greatest { shape.length ≤ MAX_MESSAGE }
    requires depth { shape.depth ≤ MAX_OPERATIONS }
    ensures asked { IfOk result
        (Converses D.told D.faults (record {
          address = address.now;
          asked = asked.now;
          length = shape.length;
          depth = shape.depth;
        }) dialer.old dialer.new) }
    ensures broken_off { OnErr result (ConverseUpTo D.told D.faults
        (record { address = address.now; asked = asked.now; length = shape.length; depth = shape.depth } ∷ [])
        dialer.old dialer.new) }
    ensures sound { IfOk result (IsSoundOutcome shape.length shape.depth) }
{
    let read = ots_conversation::converse(alloc, dialer, address, asked);
    outcome_of(alloc, read, shape)
}
