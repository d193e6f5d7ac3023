//! Asking calendars to timestamp a digest.
ghost use Rattle.std.specs.Prelude.{◌≡◌, ◌≤◌, ◌∷◌, [], map, length, IfOk, OnErr};
ghost use Rattle.ots_asking.specs.Conversation.{Converse, Converses, ConverseUpTo};
ghost use Rattle.ots_asking.specs.Outcome.{AreSound, IsSoundOutcome};
ghost use Rattle.ots_base.specs.declared.limits.TheConstants.{MAX_OPERATIONS};
ghost use Rattle.ots_stamp.specs.Stamping.{to_stamp};

use ots_asking::{Outcome, converse};
use ots_base::OutOfMemory;
use ots_http::{Address, Asked};
use ots_ops::Digest;
use ots_outside::Dialer;
use ots_tree::Shape;
use std::alloc::Global;

/// Sends a digest to each calendar in order, in a conversation of its own, and answers what came of
/// each. A reply is good where its whole body is a tree that may stand below the digest and `depth`
/// operations, at most 255.
pub fn stamp_with<D: Dialer>(
    alloc: Global,
    dialer: &mut D,
    calendars: &[Address],
    root: &Digest,
    depth: u32,
) -> Result<Vec<Outcome>, OutOfMemory>
    requires { depth ≤ MAX_OPERATIONS }
    ensures asked { IfOk result (λ outcomes. Converse D.told D.faults (map (to_stamp root.now depth) calendars.now)
        dialer.old dialer.new outcomes.items) }
    ensures broken_off { OnErr result (ConverseUpTo D.told D.faults (map (to_stamp root.now depth) calendars.now)
        dialer.old dialer.new) }
    ensures sound { IfOk result (λ outcomes. AreSound (length root.now) depth outcomes.items) }
{
    let mut outcomes = Vec::with_capacity(alloc, calendars.len())?;
    for address in calendars {
        let outcome = ask_to_stamp(alloc, dialer, address, root, depth)?;
        outcomes.push(outcome)?;
    }
    Ok(outcomes)
}

/// Sends a digest to one calendar.
fn ask_to_stamp<D: Dialer>(
    alloc: Global,
    dialer: &mut D,
    address: &Address,
    root: &Digest,
    depth: u32,
) -> Result<Outcome, OutOfMemory>
    requires { depth ≤ MAX_OPERATIONS }
    ensures asked { IfOk result (Converses D.told D.faults (to_stamp root.now depth address.now) dialer.old
        dialer.new) }
    ensures broken_off { OnErr result (ConverseUpTo D.told D.faults (to_stamp root.now depth address.now ∷ [])
        dialer.old dialer.new) }
    ensures sound { IfOk result (IsSoundOutcome (length root.now) depth) }
{
    let shape = Shape {
        length: root.bytes().len() as u32,
        depth,
    };
    converse(alloc, dialer, address, &Asked::Post(*root), shape)
}
