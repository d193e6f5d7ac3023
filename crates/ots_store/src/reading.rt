//! The tip and the anchor that a payload spells.
ghost use Rattle.std.specs.Prelude.{◌≡◌, ◌≤◌, ◌*◌, length, take, drop, IfOk};
ghost use Rattle.ots_store.specs.Records.{tip_at, anchor_at, side_at, steps_at, branch_at};
ghost use Rattle.ots_store.specs.Forms.{IsBranch, IsAnchor};

use crate::form::{number, split_part};
use crate::{Anchor, Tip};
use ots_base::OutOfMemory;
use ots_merkle::{Branch, Side};
use ots_outside::Bytes;
use std::alloc::Global;

/// The tip that a payload spells.
pub fn read_tip(payload: &[u8]) -> Tip
    requires { length payload.now ≡ 48 }
    ensures { result ≡ tip_at payload.now }
{
    let mut root = [0; 32];
    root.copy_from_slice(&payload[16..]);
    Tip {
        first: number(payload),
        count: number(&payload[8..]),
        root,
    }
}

/// The anchor that a payload spells.
pub fn read_anchor(alloc: Global, payload: &[u8]) -> Result<Anchor, OutOfMemory>
    requires { IsAnchor payload.now }
    ensures { IfOk result (λ anchor. anchor ≡ anchor_at payload.now) }
{
    let mut root = [0; 32];
    root.copy_from_slice(&payload[24..56]);
    let (prefix, following) = split_part(&payload[56..]).unwrap();
    let (suffix, branch) = split_part(following).unwrap();
    Ok(Anchor {
        first: number(payload),
        count: number(&payload[8..]),
        height: number(&payload[16..]),
        root,
        prefix: bytes_of(alloc, prefix)?,
        suffix: bytes_of(alloc, suffix)?,
        branch: read_branch(alloc, branch)?,
    })
}

/// These bytes, in memory of their own.
fn bytes_of(alloc: Global, bytes: &[u8]) -> Result<Bytes, OutOfMemory>
    ensures { IfOk result (λ copied. copied ≡ bytes.now) }
{
    Ok(Bytes::from_vec(Vec::from_slice(alloc, bytes)?))
}

/// The branch that bytes are.
fn read_branch(alloc: Global, bytes: &[u8]) -> Result<Branch, OutOfMemory>
    requires { IsBranch bytes.now }
    ensures { IfOk result (λ branch. branch ≡ branch_at bytes.now) }
{
    read_steps(alloc, &bytes[1..], bytes[0] as usize)
}

/// So many steps at the start.
fn read_steps(alloc: Global, bytes: &[u8], count: usize) -> Result<Branch, OutOfMemory>
    requires some { count ≤ 32 }
    requires long { 33 * count ≤ length bytes.now }
    ensures { IfOk result (λ branch. branch ≡ steps_at count bytes.now) }
{
    let mut branch = Branch::new(alloc);
    for i in 0..count {
        branch.push(step_at(&bytes[33 * i..]))?;
    }
    Ok(branch)
}

/// The step at the start.
fn step_at(bytes: &[u8]) -> (Side, [u8; 32])
    requires { 33 ≤ length bytes.now }
    ensures side { result.0 ≡ side_at bytes.now }
    ensures hash { result.1 ≡ take 32 (drop 1 bytes.now) }
{
    let mut hash = [0; 32];
    hash.copy_from_slice(&bytes[1..33]);
    let side = if bytes[0] == 0 {
        Side::Left
    } else {
        Side::Right
    };
    (side, hash)
}
