//! How an attestation is spelled.
ghost use Rattle.std.specs.Prelude.{◌≡◌, ◌≤◌, ◌-◌, ◌++◌, length, drop};
ghost use Rattle.ots_varint.specs.Varuint.{varuint, varbytes};
ghost use Rattle.ots_attest.specs.Attestation.{spell, payload, kind, IsAttestation};

use crate::attestation::Attestation;
use ots_base::{MAX_PAYLOAD, MAX_URI};
use ots_varint::{MAX_SPELLED_NUMBER, put_number, put_varbytes};

/// The most bytes of an attestation's spelling, 8203: the tag, the eight bytes of the kind, and the
/// longest payload after its length, which two bytes spell.
pub const MAX_SPELLED_ATTESTATION: usize = 11 + MAX_PAYLOAD;

/// Writes the spelling of an attestation at the start, leaves the bytes after it as they are, and
/// answers how many bytes it has: 10 to `MAX_SPELLED_ATTESTATION`. It takes no memory.
pub fn spell_attestation(
    attestation: &Attestation,
    out: &mut [u8; MAX_SPELLED_ATTESTATION],
) -> usize
    ensures length { result ≡ length (spell attestation.now) }
    ensures spelled { out.new ≡ spell attestation.now ++ drop (length (spell attestation.now)) out.old }
{
    let length = attestation.spelled_length();
    out[0] = 0x00;
    put_after_tag(attestation, &mut out[1..]);
    length
}

/// Writes the kind and the payload after its length at the start, and leaves the bytes after them
/// as they are.
#[tactic(auto, using(crate::proofs::Lengths::spelled_length))]
fn put_after_tag(attestation: &Attestation, out: &mut [u8])
    requires limits { IsAttestation attestation.now }
    requires room { length out.old ≡ MAX_SPELLED_ATTESTATION - 1 }
    ensures { out.new ≡ (kind attestation.now ++ varbytes (payload attestation.now))
        ++ drop (length (kind attestation.now ++ varbytes (payload attestation.now))) out.old }
{
    let kind = attestation.kind();
    out[..8].copy_from_slice(&kind);
    put_payload(attestation, &mut out[8..]);
}

/// Writes the payload after its length at the start, and leaves the bytes after it as they are.
#[tactic(auto, using(crate::proofs::Lengths::lengths))]
fn put_payload(attestation: &Attestation, out: &mut [u8])
    requires { length (varbytes (payload attestation.now)) ≤ length out.old }
    ensures { out.new ≡ varbytes (payload attestation.now) ++ drop (length (varbytes (payload attestation.now)))
        out.old }
{
    match attestation {
        Attestation::Pending(uri) => {
            let mut spelled = [0; MAX_SPELLED_NUMBER + MAX_URI];
            let length = put_varbytes(uri.text().as_bytes(), &mut spelled);
            put_varbytes(&spelled[..length], out);
        }
        Attestation::Bitcoin(height) | Attestation::Litecoin(height) => {
            let mut spelled = [0; MAX_SPELLED_NUMBER];
            let length = put_number(*height, &mut spelled);
            put_varbytes(&spelled[..length], out);
        }
        Attestation::Unknown(other) => {
            put_varbytes(other.payload().bytes(), out);
        }
    }
}
