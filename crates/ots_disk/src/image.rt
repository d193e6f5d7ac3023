//! What a crash may leave: the bytes after some calls, and a choice for each write that no sync followed.
ghost use Rattle.std.specs.Prelude.{◌≡◌, ◌≤◌, length, take, drop, IfOk, OnOk};
ghost use Rattle.ots_disk.specs.Choice.{chosen, chosen_write, in_first};
ghost use Rattle.ots_disk.specs.Disk.{put};
ghost use Rattle.ots_disk.specs.History.{DiskState, after_of, after_calls, start};

use crate::{Choice, DiskCall, MadeCall};
use ots_base::OutOfMemory;
use std::alloc::Global;

/// Brings what is read and what a crash leaves from before a call to after it.
pub fn replay(
    alloc: Global,
    bytes: &mut Vec<u8>,
    image: &mut Vec<u8>,
    made: &MadeCall,
    choice: Choice,
) -> Result<(), OutOfMemory>
    ensures bytes { (s : DiskState) → bytes.old.items ≡ s.bytes
        → OnOk result (bytes.new.items ≡ (after_of made.now.call made.now.failed s).bytes) }
    ensures image { (s : DiskState) → bytes.old.items ≡ s.bytes → image.old.items ≡ chosen choice s.durable s.pending
        → OnOk result (image.new.items ≡ chosen choice (after_of made.now.call made.now.failed s).durable
        (after_of made.now.call made.now.failed s).pending) }
{
    match &made.call {
        DiskCall::Length | DiskCall::Read => Ok(()),
        DiskCall::Write(place, piece) => {
            choose(alloc, image, *place, piece.items(), choice)?;
            if !made.failed {
                *bytes = overwritten(alloc, bytes, *place as usize, piece.items())?;
            }
            Ok(())
        }
        DiskCall::Sync => {
            if !made.failed {
                *image = bytes.to_vec(alloc)?;
            }
            Ok(())
        }
    }
}

/// Does to an image what is chosen for a pending write.
pub fn choose(
    alloc: Global,
    image: &mut Vec<u8>,
    place: u64,
    piece: &[u8],
    choice: Choice,
) -> Result<(), OutOfMemory>
    ensures { OnOk result (image.new.items ≡ chosen_write choice place piece.now image.old.items) }
{
    match choice {
        Choice::Dropped => Ok(()),
        Choice::Kept => {
            *image = overwritten(alloc, image, place as usize, piece)?;
            Ok(())
        }
        Choice::Fill(byte) => {
            let filled = vec![in alloc; byte; piece.len()]?;
            *image = overwritten(alloc, image, place as usize, &filled)?;
            Ok(())
        }
    }
}

/// What is chosen in the middle of the call after the first `before` calls.
pub fn image_in(
    alloc: Global,
    first: &[u8],
    calls: &[MadeCall],
    before: usize,
    choice: Choice,
) -> Result<Vec<u8>, OutOfMemory>
    requires { before ≤ length calls.now }
    ensures { IfOk result (λ image. image.items ≡ chosen choice
        (in_first (drop before calls.now) (after_calls (start first.now) (take before calls.now))).durable
        (in_first (drop before calls.now) (after_calls (start first.now) (take before calls.now))).pending) }
{
    let mut image = image_after(alloc, first, &calls[..before], choice)?;
    choose_first(alloc, &mut image, &calls[before..], choice)?;
    Ok(image)
}

/// What is chosen between calls.
fn image_after(
    alloc: Global,
    first: &[u8],
    calls: &[MadeCall],
    choice: Choice,
) -> Result<Vec<u8>, OutOfMemory>
    ensures { IfOk result (λ image. image.items ≡ chosen choice (after_calls (start first.now) calls.now).durable
        (after_calls (start first.now) calls.now).pending) }
{
    let mut bytes = first.to_vec(alloc)?;
    let mut image = first.to_vec(alloc)?;
    for made in calls {
        replay(alloc, &mut bytes, &mut image, made, choice)?;
    }
    Ok(image)
}

/// What is chosen in the middle of the first of these calls, where there is one.
fn choose_first(
    alloc: Global,
    image: &mut Vec<u8>,
    calls: &[MadeCall],
    choice: Choice,
) -> Result<(), OutOfMemory>
    ensures { (s : DiskState) → image.old.items ≡ chosen choice s.durable s.pending
        → OnOk result (image.new.items ≡ chosen choice (in_first calls.now s).durable (in_first calls.now s).pending) }
{
    match calls {
        [] => Ok(()),
        [made, ..] => match &made.call {
            DiskCall::Write(place, piece) => choose(alloc, image, *place, piece.items(), choice),
            _ => Ok(()),
        },
    }
}

/// The bytes after a piece is written over those that are there, and past their end.
fn overwritten(
    alloc: Global,
    bytes: &[u8],
    place: usize,
    piece: &[u8],
) -> Result<Vec<u8>, OutOfMemory>
    ensures { IfOk result (λ next. next.items ≡ put place piece.now bytes.now) }
{
    let at = place.min(bytes.len());
    let mut next = bytes[..at].to_vec(alloc)?;
    next.extend_from_slice(piece)?;
    if piece.len() < bytes.len() - at {
        next.extend_from_slice(&bytes[at + piece.len()..])?;
    }
    Ok(next)
}
