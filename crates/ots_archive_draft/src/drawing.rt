//! A nonce is drawn for each file, and one tree is made over all.
ghost use Rattle.std.specs.Prelude.{◌≡◌, ◌≤◌, ◌<◌, ◌^◌, IfOk, length, map};
ghost use Rattle.ots_archive_draft.specs.Drawing.{DrawsAll, DrawsFor, digest_of, result_targets};
ghost use Rattle.ots_archive_draft.specs.Files.{AreLong};
ghost use Rattle.ots_merkle.specs.Hashes.{AreHashes};
ghost use Rattle.ots_stamp.specs.Stamped.{leaves};

use ots_archive_steps::refuse;
use ots_archive_text::ArchiveStatus;
use ots_archive_world::World;
use ots_base::OutOfMemory;
use ots_ops::Digest;
use ots_outside::Failed;
use ots_stamp::{Target, Ways, leaf_of};
use std::alloc::Global;

/// Draws a nonce for each of these digests, in order. Where drawing fails, the run ends with the line that tells so.
pub fn draw_targets<W: World>(
    alloc: Global,
    digests: &[Digest],
    world: &mut W,
) -> Result<Vec<Target>, ArchiveStatus>
    requires { AreLong digests.now }
    ensures draws { DrawsAll digests.now (W.told world.old) (W.told world.new) (result_targets result) }
    ensures digests { IfOk result (λ targets. map digest_of targets.items ≡ digests.now) }
{
    let mut targets = Vec::new(alloc);
    for digest in digests {
        match draw_target(*digest, world) {
            Ok(target) => match targets.push(target) {
                Ok(()) => {}
                Err(_) => return Err(ArchiveStatus::OutOfMemory),
            },
            Err(status) => return Err(status),
        }
    }
    Ok(targets)
}

/// Draws a nonce for a digest.
fn draw_target<W: World>(digest: Digest, world: &mut W) -> Result<Target, ArchiveStatus>
    requires { length digest ≡ 32 }
    ensures { DrawsFor digest (W.told world.old) (W.told world.new) result }
{
    match world.draw() {
        Ok(nonce) => Ok(Target { digest, nonce }),
        Err(Failed) => Err(refuse(b"", ArchiveStatus::NonceFault, world)),
    }
}

/// The ways from these targets to the root of the tree over all.
pub fn ways_of(alloc: Global, targets: &[Target]) -> Result<Ways, OutOfMemory>
    requires least { 1 ≤ length targets.now }
    requires most { length targets.now < 2 ^ 32 }
    ensures leaves { IfOk result (λ ways. ways ≡ leaves targets.now) }
    ensures hashes { IfOk result AreHashes }
{
    let mut leaves = Vec::with_capacity(alloc, targets.len())?;
    for target in targets {
        leaves.push(leaf_of(target.digest.bytes(), &target.nonce))?;
    }
    Ways::new(alloc, leaves)
}
