//! The commitment of a round.
ghost use Rattle.std.specs.Prelude.{◌≡◌, ◌≤◌, ◌+◌, ◌++◌, IfOk, length, take};
ghost use Rattle.ots_round.specs.Round.{leaf, leaves, signed, commitment};

use crate::hmac::keyed;
use crate::{Key, Ticket};
use ots_base::OutOfMemory;
use sha2::{Digest, Sha256};
use std::alloc::Global;

/// The number of bytes of a commitment: the second 4, the root 32, the keyed hash 8.
pub const COMMITMENT: usize = 44;

/// The number of bytes that are signed: the second 4, the root 32.
const SIGNED: usize = 36;

/// The leaves of a round's tree, of these tickets in order: SHA-256 of the digest with the nonce
/// after it. They lie in memory of `alloc`.
pub fn leaf_hashes(alloc: Global, tickets: &[Ticket]) -> Result<Vec<[u8; 32]>, OutOfMemory>
    ensures { IfOk result (λ made. made.items ≡ leaves tickets.now) }
{
    let mut hashes = Vec::with_capacity(alloc, tickets.len())?;
    for ticket in tickets {
        hashes.push(leaf_hash(ticket))?;
    }
    Ok(hashes)
}

/// The leaf of a ticket.
fn leaf_hash(ticket: &Ticket) -> [u8; 32]
    ensures { result ≡ leaf ticket.now }
{
    let mut hasher = Sha256::new();
    hasher.update(ticket.leaf.bytes());
    hasher.update(&ticket.nonce);
    hasher.finalize()
}

/// The commitment of a round that is closed at this Unix second and whose tree has this root: the
/// second with its high byte first, the root, and the first 8 bytes of HMAC-SHA256 over those 36.
pub fn commitment(key: &Key, second: u32, root: &[u8; 32]) -> [u8; COMMITMENT]
    ensures { result ≡ commitment key.now second root.now }
{
    let signed = signed(second, root);
    let hash = keyed(&key.block, &signed);
    let mut bytes = [0; COMMITMENT];
    put(&mut bytes, 0, &signed);
    put(&mut bytes, SIGNED, &hash[..COMMITMENT - SIGNED]);
    bytes
}

/// What is signed.
fn signed(second: u32, root: &[u8; 32]) -> [u8; SIGNED]
    ensures { result ≡ signed second root.now }
{
    let mut bytes = [0; SIGNED];
    bytes[..4].copy_from_slice(&second.to_be_bytes());
    bytes[4..].copy_from_slice(root);
    bytes
}

/// Writes a part after the bytes before this place.
fn put(bytes: &mut [u8; COMMITMENT], place: usize, part: &[u8])
    requires { place + length part.now ≤ COMMITMENT }
    ensures { take (place + length part.now) bytes.new ≡ take place bytes.old ++ part.now }
{
    bytes[place..place + part.len()].copy_from_slice(part);
}
