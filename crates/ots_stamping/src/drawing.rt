//! A nonce is drawn for each file.
ghost use Rattle.std.specs.Prelude.{◌≡◌, length, map, IfErr, IfOk};
ghost use Rattle.std.specs.List.{All};
ghost use Rattle.ots_base.specs.Cause.{Rose};
ghost use Rattle.ots_client_endings.specs.Outside.{Draws, DrawsSome};

use ots_ops::Digest;
use ots_outside::{Failed, Nonces};
use ots_stamp::Target;
use std::alloc::{AllocError, AllocFailed, Global};

/// Why not all nonces were drawn.
#[derive(Clone, Copy, Debug, PartialEq, Eq)]
pub enum DrawError {
    /// The source of nonces counted a fault.
    NonceFault,
    /// Memory ran out.
    OutOfMemory,
}

impl From<Failed> for DrawError {
    ghost use Rattle.ots_stamping.specs.declared.drawing.DrawError.TheVariants.{NonceFault};

    ghost from_gives = { λ _ e. e ≡ NonceFault };

    fn from(_: Failed) -> Self {
        DrawError::NonceFault
    }
}

impl From<AllocError> for DrawError {
    ghost use Rattle.ots_stamping.specs.declared.drawing.DrawError.TheVariants.{OutOfMemory};

    ghost from_gives = { λ _ e. e ≡ OutOfMemory };

    fn from(_: AllocError) -> Self {
        DrawError::OutOfMemory
    }
}

impl<T: Drop> From<AllocFailed<T>> for DrawError {
    ghost use Rattle.ots_stamping.specs.declared.drawing.DrawError.TheVariants.{OutOfMemory};

    ghost from_gives = { λ _ e. e ≡ OutOfMemory };

    fn from(_: AllocFailed<T>) -> Self {
        DrawError::OutOfMemory
    }
}

/// Draws a nonce for each digest.
pub fn draw_targets<N: Nonces>(
    alloc: Global,
    digests: &[Digest],
    nonces: &mut N,
) -> Result<Vec<Target>, DrawError>
    requires { All (λ digest. length digest ≡ 32) digests.now }
    ensures digests { IfOk result (λ targets. map (λ t. t.digest) targets.items ≡ digests.now) }
    ensures drawn { IfOk result (λ targets. Draws N.left (map (λ t. t.nonce) targets.items) nonces.old nonces.new) }
    ensures failed { IfErr result (λ e. e ≡ DrawError.NonceFault
        → Rose (N.faults nonces.old) (N.faults nonces.new)) }
    ensures draws { DrawsSome N.left (length digests.now) nonces.old nonces.new }
{
    let mut targets = Vec::with_capacity(alloc, digests.len())?;
    for digest in digests {
        let mut nonce = [0; 16];
        nonces.fill16(&mut nonce)?;
        targets.push(Target {
            digest: *digest,
            nonce,
        })?;
    }
    Ok(targets)
}
