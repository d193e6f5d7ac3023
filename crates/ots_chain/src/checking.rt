//! Whether the headers of a table are one chain, and meet their targets.
ghost use Rattle.std.specs.Prelude.{◌≡◌, ◌+◌, ◌≤◌, ◌↔◌, IsTrue, length};
ghost use Rattle.ots_chain.specs.Target.{be_number, le_number};
ghost use Rattle.ots_chain.specs.Chain.{FaultOf, IsCheckOf};

use crate::targets::target;
use ots_headers::{Headers, block_hash};

/// Why a header is not good: the first of these that holds.
#[derive(Clone, Copy, Debug, PartialEq, Eq)]
pub enum ChainFault {
    /// It does not name the hash of the header before it.
    BadLink,
    /// Its compact bits stand for no target.
    BadBits,
    /// Its hash is a greater number than its target.
    AboveTarget,
}

/// What the headers of a table are.
#[derive(Clone, Copy, Debug, PartialEq, Eq)]
pub enum ChainCheck {
    /// Each header is good.
    Whole {
        /// The height of the first header.
        first: u64,
        /// The height of the last header.
        last: u64,
        /// The hash of the last header, as Bitcoin keeps it: the usual text has the bytes from the
        /// last to the first.
        tip: [u8; 32],
    },
    /// Each header below a height is good, and the one there is not.
    Broken {
        /// The height.
        height: u64,
        /// What is the matter with that header.
        fault: ChainFault,
    },
}

/// Whether each header of the table but the first names the hash of the one before it, and each
/// header's hash, read with its low byte first, is at most the target that its own bits stand for. The
/// least height whose header is not good is told, with its first fault. It takes no memory.
///
/// The rule by which Bitcoin sets the target, and the work of other chains, are not looked at. Source:
/// `CheckProofOfWork` of Bitcoin Core (`src/pow.cpp`), and `CBlockHeader::hashPrevBlock`.
pub fn check(headers: &Headers) -> ChainCheck
    ensures { IsCheckOf headers.now result }
{
    let first = headers.first();
    let mut height = first;
    let mut tip = [0; 32];
    while let Some(header) = headers.at(height) {
        let hash = block_hash(&header.to_bytes());
        let is_linked = height == first || header.previous == tip;
        if let Some(fault) = fault_of(is_linked, header.bits, &hash) {
            return ChainCheck::Broken { height, fault };
        }
        tip = hash;
        height += 1;
    }
    ChainCheck::Whole {
        first,
        last: height - 1,
        tip,
    }
}

/// What is the matter with a header of these bits and this hash: the first fault.
fn fault_of(is_linked: bool, bits: u32, hash: &[u8; 32]) -> Option<ChainFault>
    ensures { FaultOf (IsTrue is_linked) bits hash.now result }
{
    if !is_linked {
        return Some(ChainFault::BadLink);
    }
    match target(bits) {
        None => Some(ChainFault::BadBits),
        Some(target) if is_at_most(hash, &target) => None,
        Some(_) => Some(ChainFault::AboveTarget),
    }
}

/// Whether a hash, read with its low byte first, is at most a number whose high byte stands first.
fn is_at_most(hash: &[u8; 32], number: &[u8; 32]) -> bool
    ensures { IsTrue result ↔ (le_number hash.now ≤ be_number number.now) }
{
    let mut shown = *hash;
    shown.reverse();
    shown.as_slice().cmp(number.as_slice()).is_le()
}
