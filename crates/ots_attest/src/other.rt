//! An attestation of a kind that is not known.
ghost use Rattle.std.specs.Prelude.{◌≡◌, ◌<◌, ◌≤◌, length, IfOk};
ghost use Rattle.std.specs.List.{AllByRecursion};
ghost use Rattle.ots_attest.specs.Kind.{IsUnknown};
ghost use Rattle.ots_attest.specs.Payload.{IsPayload};

use ots_base::{MAX_PAYLOAD, OutOfMemory};
use std::alloc::{AllocError, Global};
use std::marker::Model;

/// The payload of an attestation of an unknown kind: 0 to `MAX_PAYLOAD` bytes, 8192, kept unread.
///
/// Contracts see the list of these bytes.
#[derive(Debug, Drop)]
pub struct Payload {
    bytes: Vec<u8>,
}

impl Model for Payload {
    ghost use Rattle.std.specs.Prelude.{ℕ, List};
    ghost use Rattle.ots_attest.specs.Payload.{IsPayload};

    ghost Value = { List ℕ };

    ghost view = { λ p. p.bytes.items };

    ghost invariant = { λ p. IsPayload p.bytes.items };
}

impl Payload {
    /// Where its memory comes from.
    pub(crate) fn allocator(&self) -> Global {
        *self.bytes.allocator()
    }

    /// The bytes, 0 to 8192 of them.
    pub fn bytes(&self) -> &[u8]
        ensures bytes { result.now ≡ self.now }
        ensures limits { IsPayload self.now }
    {
        self.bytes.as_slice()
    }

    /// The payload of these bytes.
    pub(crate) fn new(alloc: Global, bytes: &[u8]) -> Result<Payload, AllocError>
        requires { length bytes.now ≤ MAX_PAYLOAD }
        ensures { IfOk result (λ p. (p ≡ bytes.now) × IsPayload p) }
    {
        let bytes = Vec::from_slice(alloc, bytes)?;
        Ok(Payload { bytes })
    }

    /// An equal payload.
    pub fn copy(&self) -> Result<Payload, OutOfMemory>
        ensures { IfOk result (λ copied. copied ≡ self.now) }
    {
        let bytes = self.bytes.clone()?;
        Ok(Payload { bytes })
    }
}

/// An attestation whose kind is neither Pending nor Bitcoin nor Litecoin. Its kind and payload are
/// kept and written back unread.
///
/// Contracts see its parts.
#[derive(Debug, Drop)]
pub struct Other {
    // in a box, so that a token of a tree with no such attestation is small
    parts: Box<OtherParts>,
}

impl Model for Other {
    ghost use Rattle.ots_attest.specs.declared.other.OtherParts.{OtherParts};

    ghost Value = { OtherParts };

    ghost view = { λ o. o.parts.value };
}

/// The kind and the payload of an attestation of an unknown kind.
#[derive(Debug, Drop)]
pub struct OtherParts {
    /// The eight bytes that name the kind.
    pub kind: [u8; 8],
    /// What stands after the kind.
    pub payload: Payload,
    ghost unknown: { IsUnknown kind },
}

impl Other {
    /// The attestation of these parts, in memory of `alloc`, which it keeps.
    pub fn new(alloc: Global, parts: OtherParts) -> Result<Other, OutOfMemory>
        ensures { IfOk result (λ other. other ≡ parts) }
    {
        Ok(Other {
            parts: Box::new(alloc, parts)?,
        })
    }

    /// The eight bytes that name the kind.
    pub fn kind(&self) -> &[u8; 8]
        ensures { result.now ≡ self.now.kind }
    {
        &self.parts.kind
    }

    /// What stands after the kind.
    pub fn payload(&self) -> &Payload
        ensures { result.now ≡ self.now.payload }
    {
        &self.parts.payload
    }

    /// An equal attestation, in memory of this one's allocator.
    #[tactic(auto, using(crate::proofs::OneAttestation::same_other))]
    pub fn copy(&self) -> Result<Other, OutOfMemory>
        ensures { IfOk result (λ copied. copied ≡ self.now) }
    {
        let parts = OtherParts {
            kind: self.parts.kind,
            payload: self.parts.payload.copy()?,
        };
        Other::new(self.payload().allocator(), parts)
    }
}

/// The eight bytes of a kind.
pub(crate) fn copy_kind(kind: &[u8; 8]) -> [u8; 8]
    ensures copied { result ≡ kind.now }
    ensures eight { length kind.now ≡ 8 }
    ensures bytes { AllByRecursion (λ b. b < 256) kind.now }
{
    let mut copied = [0; 8];
    copied.copy_from_slice(kind);
    copied
}
