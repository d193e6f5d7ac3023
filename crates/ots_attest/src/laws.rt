//! Laws of attestations: their spellings, their payloads and their order.
ghost use Rattle.std.specs.Prelude.{◌≡◌, ◌≢◌, ◌⊎◌, ℕ, ◌<◌, ◌≤◌, List, ◌∷◌, ◌++◌, length, Option, None, Some};
ghost use Rattle.std.specs.List.{AllByRecursion};
ghost use Rattle.std.specs.Ordering.{nat_cmp};
ghost use Rattle.std.specs.Cmp.Lexicographic.{slice_cmp};
ghost use Rattle.ots_attest.specs.Attestation.{attestation_cmp, key, kind, payload, spell, IsAttestation};
ghost use Rattle.ots_attest.specs.AttestationRef.{attestation_of};
ghost use Rattle.ots_attest.specs.PayloadFault.{payload_fault, IsOf};
ghost use Rattle.ots_attest.specs.declared.other.OtherParts.{OtherParts};
ghost use Rattle.ots_attest.specs.declared.payload.PayloadError.{PayloadError};
ghost use Rattle.ots_attest.specs.declared.payload.PayloadError.TheVariants.{OutOfMemory};

use crate::attestation::Attestation;
use crate::attestation_ref::AttestationRef;
use crate::other::copy_kind;
use ots_base::{MAX_PAYLOAD, are_bytes};

/// A spelling determines its attestation and begins no other's. Nor does it begin with an
/// operation's, whose tag is never 0.
pub fn one_attestation()
    ensures apart { (a b : Attestation) (x y : List ℕ) → IsAttestation a → IsAttestation b → spell a ++ x ≡ spell b ++ y
        → (a ≡ b) × (x ≡ y) }
    ensures tagged { (a : Attestation) → (rest : List ℕ) × (spell a ≡ 0x00 ∷ rest) }
{}

/// Any attestation is within its limits: a URI of 0 to `MAX_URI` bytes, each of them allowed, a
/// height below 2^64, or a kind of eight bytes and a payload of 0 to `MAX_PAYLOAD`.
pub fn limits_of_attestation(attestation: &Attestation)
    ensures { IsAttestation attestation.now }
{
    let _ = attestation.spelled_length();
}

/// So is any attestation whose URI or payload stands elsewhere.
pub fn limits_of_borrowed_attestation(attestation: AttestationRef<'_>)
    ensures { IsAttestation (attestation_of attestation.entry) }
{
    match attestation {
        AttestationRef::Pending(uri) => {
            let _ = uri.text();
        }
        AttestationRef::Bitcoin(_) | AttestationRef::Litecoin(_) => {}
        AttestationRef::Unknown(other) => {
            let _ = copy_kind(&other.kind);
            are_bytes(other.payload);
        }
    }
}

/// Kind and payload determine an attestation, whose payload has no fault; and a payload of at most
/// `MAX_PAYLOAD` bytes is that of some attestation of its kind, or has a fault, which is never want
/// of memory.
pub fn one_fault()
    ensures one { (a b : Attestation) → kind a ≡ kind b → payload a ≡ payload b → a ≡ b }
    ensures sound { (a : Attestation) → IsAttestation a → payload_fault (kind a) (payload a) ≡ None }
    ensures some { (k p : List ℕ) → length k ≡ 8 → AllByRecursion (λ b. b < 256) k → AllByRecursion (λ b. b < 256) p
        → length p ≤ MAX_PAYLOAD
        → ((e : PayloadError) × (payload_fault k p ≡ Some e) × (e ≢ OutOfMemory)) ⊎ ((a : Attestation) × IsOf k p a) }
{}

/// Attestations of two kinds compare as the bytes of their kinds. Those of one kind compare as the
/// bytes of their URIs, as their heights, which are numbers, or as the bytes of their payloads. Of
/// bytes the first difference decides, and a proper prefix is less.
pub fn order_of_attestations()
    ensures kinds { (a b : Attestation) → IsAttestation a → IsAttestation b → kind a ≢ kind b
        → attestation_cmp a b ≡ slice_cmp nat_cmp (kind a) (kind b) }
    ensures uris { (u v : List ℕ) → attestation_cmp (Attestation.Pending u) (Attestation.Pending v)
        ≡ slice_cmp nat_cmp u v }
    ensures bitcoin { (m n : ℕ) → attestation_cmp (Attestation.Bitcoin m) (Attestation.Bitcoin n) ≡ nat_cmp m n }
    ensures litecoin { (m n : ℕ) → attestation_cmp (Attestation.Litecoin m) (Attestation.Litecoin n) ≡ nat_cmp m n }
    ensures payloads { (o p : OtherParts) → o.kind ≡ p.kind → attestation_cmp (Attestation.Unknown o) (Attestation.Unknown p)
        ≡ slice_cmp nat_cmp o.payload p.payload }
{}

/// Two attestations that compare as equal are the same.
pub fn one_key()
    ensures { (a b : Attestation) → IsAttestation a → IsAttestation b → key a ≡ key b → a ≡ b }
{}
