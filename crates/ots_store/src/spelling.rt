//! How a tip and an anchor are spelled.
ghost use Rattle.std.specs.Prelude.{◌≡◌, ◌≤◌, ◌<◌, ◌++◌, ◌^◌, length, true, false, IfOk, OnOk};
ghost use Rattle.std.specs.List.{flat_map, AllByRecursion};
ghost use Rattle.ots_store.specs.Records.{tip_payload, anchor_payload, sized, step_bytes, branch_bytes, FitsTip};
ghost use Rattle.ots_store.specs.Records.{FitsAnchor, FitsLimits, HasHash};

use crate::form::TIP_PAYLOAD;
use crate::{Anchor, Tip};
use ots_base::OutOfMemory;
use ots_merkle::Side;
use std::alloc::Global;

/// The payload of a tip's entry.
pub fn spell_tip(tip: &Tip) -> [u8; TIP_PAYLOAD]
    ensures spelled { result ≡ tip_payload tip.now }
    ensures fits { FitsTip tip.now }
{
    let Tip { first, count, root } = *tip;
    let mut payload = [0; TIP_PAYLOAD];
    payload[..8].copy_from_slice(&first.to_be_bytes());
    payload[8..16].copy_from_slice(&count.to_be_bytes());
    payload[16..].copy_from_slice(&root);
    payload
}

/// Whether an anchor is within the limits of its form.
pub fn fits_limits(anchor: &Anchor) -> bool
    ensures yes { result ≡ true → FitsLimits anchor.now }
    ensures no { result ≡ false → FitsLimits anchor.now → ⊥ }
{
    if anchor.height >= 1 << 63 || anchor.branch.items().len() > 32 {
        return false;
    }
    let prefix = anchor.prefix.items().len();
    let suffix = anchor.suffix.items().len();
    prefix <= 4064 && suffix <= 4064 - prefix
}

/// The payload of an anchor's entry.
pub fn spell_anchor(alloc: Global, anchor: &Anchor) -> Result<Vec<u8>, OutOfMemory>
    requires { FitsLimits anchor.now }
    ensures spelled { IfOk result (λ payload. payload.items ≡ anchor_payload anchor.now) }
    ensures fits { OnOk result (FitsAnchor anchor.now) }
{
    let mut payload = Vec::new(alloc);
    payload.extend_from_slice(&anchor.first.to_be_bytes())?;
    payload.extend_from_slice(&anchor.count.to_be_bytes())?;
    payload.extend_from_slice(&anchor.height.to_be_bytes())?;
    payload.extend_from_slice(&anchor.root)?;
    add_sized(&mut payload, anchor.prefix.items())?;
    add_sized(&mut payload, anchor.suffix.items())?;
    add_branch(&mut payload, anchor.branch.items())?;
    Ok(payload)
}

/// Adds the length of bytes and the bytes.
fn add_sized(payload: &mut Vec<u8>, bytes: &[u8]) -> Result<(), OutOfMemory>
    requires { length bytes.now < 2 ^ 16 }
    ensures { OnOk result (payload.new.items ≡ payload.old.items ++ sized bytes.now) }
{
    let size = bytes.len() as u16;
    payload.extend_from_slice(&size.to_be_bytes())?;
    payload.extend_from_slice(bytes)?;
    Ok(())
}

/// Adds the number of steps and the steps.
fn add_branch(payload: &mut Vec<u8>, branch: &[(Side, [u8; 32])]) -> Result<(), OutOfMemory>
    requires { length branch.now ≤ 32 }
    ensures spelled { OnOk result (payload.new.items ≡ payload.old.items ++ branch_bytes branch.now) }
    ensures hashes { OnOk result (AllByRecursion HasHash branch.now) }
{
    payload.push(branch.len() as u8)?;
    for step in branch {
        add_step(payload, step)?;
    }
    Ok(())
}

/// Adds a step.
fn add_step(payload: &mut Vec<u8>, step: &(Side, [u8; 32])) -> Result<(), OutOfMemory>
    ensures spelled { OnOk result (payload.new.items ≡ payload.old.items ++ step_bytes step.now) }
    ensures hash { OnOk result (HasHash step.now) }
{
    let side = match step.0 {
        Side::Left => 0,
        Side::Right => 1,
    };
    payload.push(side)?;
    payload.extend_from_slice(&step.1)?;
    Ok(())
}
