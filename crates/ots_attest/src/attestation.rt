//! The attestations.
ghost use Rattle.std.specs.Prelude.{◌≡◌, ◌+◌, ◌<◌, ◌≤◌, length, IfOk};
ghost use Rattle.ots_varint.specs.Varuint.{varuint};
ghost use Rattle.ots_attest.specs.Attestation.{kind, payload, spell, IsAttestation};

use crate::other::{Other, copy_kind};
use crate::uri::Uri;
use ots_base::{MAX_PAYLOAD, OutOfMemory};
use ots_varint::varuint_length;

/// What a path of operations ends in.
///
/// Attestations are ordered by the bytes of their kinds, and those of one kind by the bytes of
/// their URIs, by their heights as numbers, or by the bytes of their payloads.
#[derive(Debug, Drop)]
pub enum Attestation {
    /// A calendar promises to complete the path. It is to be asked at this URI.
    Pending(Uri),
    /// The message is the Merkle root of the Bitcoin block at this height.
    Bitcoin(u64),
    /// The message is the Merkle root of the Litecoin block at this height.
    Litecoin(u64),
    /// An attestation of any other kind.
    Unknown(Other),
}

impl Attestation {
    /// An equal attestation.
    pub fn copy(&self) -> Result<Attestation, OutOfMemory>
        ensures { IfOk result (λ copied. copied ≡ self.now) }
    {
        Ok(match self {
            Attestation::Pending(uri) => Attestation::Pending(uri.copy()?),
            Attestation::Bitcoin(height) => Attestation::Bitcoin(*height),
            Attestation::Litecoin(height) => Attestation::Litecoin(*height),
            Attestation::Unknown(other) => Attestation::Unknown(other.copy()?),
        })
    }

    /// How many bytes the spelling has: 10 to `MAX_SPELLED_ATTESTATION`, 8203. It takes no memory.
    #[tactic(auto, using(crate::proofs::Lengths::spelled_length, crate::proofs::Lengths::lengths))]
    pub fn spelled_length(&self) -> usize
        ensures length { result ≡ length (spell self.now) }
        ensures limits { IsAttestation self.now }
    {
        9 + varbytes_length(self.payload_length())
    }

    /// How many bytes the payload has: 0 to `MAX_PAYLOAD`, 8192.
    #[tactic(auto, using(crate::proofs::Lengths::lengths))]
    fn payload_length(&self) -> usize
        ensures length { result ≡ length (payload self.now) }
        ensures few { result ≤ MAX_PAYLOAD }
        ensures limits { IsAttestation self.now }
    {
        match self {
            Attestation::Pending(uri) => varbytes_length(uri.text().len()),
            Attestation::Bitcoin(height) | Attestation::Litecoin(height) => varuint_length(*height),
            Attestation::Unknown(other) => {
                let _ = copy_kind(other.kind());
                other.payload().bytes().len()
            }
        }
    }

    /// The eight bytes that name the kind.
    pub(crate) fn kind(&self) -> [u8; 8]
        ensures kind { result ≡ kind self.now }
        ensures eight { length (kind self.now) ≡ 8 }
    {
        match self {
            Attestation::Pending(_) => PENDING,
            Attestation::Bitcoin(_) => BITCOIN,
            Attestation::Litecoin(_) => LITECOIN,
            Attestation::Unknown(other) => copy_kind(other.kind()),
        }
    }
}

/// The kind of a pending attestation.
pub(crate) const PENDING: [u8; 8] = [0x83, 0xdf, 0xe3, 0x0d, 0x2e, 0xf9, 0x0c, 0x8e];

/// The kind of a Bitcoin attestation.
pub(crate) const BITCOIN: [u8; 8] = [0x05, 0x88, 0x96, 0x0d, 0x73, 0xd7, 0x19, 0x01];

/// The kind of a Litecoin attestation.
pub(crate) const LITECOIN: [u8; 8] = [0x06, 0x86, 0x9a, 0x0d, 0x73, 0xd7, 0x1b, 0x45];

/// The length of `count` bytes that stand after their length.
#[tactic(auto, using(crate::proofs::Lengths::lengths))]
fn varbytes_length(count: usize) -> usize
    requires { count ≤ MAX_PAYLOAD }
    ensures { result ≡ length (varuint count) + count }
{
    varuint_length(count as u64) + count
}
