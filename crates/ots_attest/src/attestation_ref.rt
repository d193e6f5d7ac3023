//! An attestation whose parts stand elsewhere.
ghost use Rattle.std.specs.Prelude.{◌≡◌, IfOk};
ghost use Rattle.ots_attest.specs.AttestationRef.{attestation_of, other_of};

use crate::attestation::Attestation;
use crate::other::{Other, OtherParts, Payload};
use crate::other_ref::OtherRef;
use crate::uri_ref::UriRef;
use ots_base::OutOfMemory;
use std::alloc::Global;

/// An attestation whose URI or payload stands elsewhere, as in the bytes that it was read from.
///
/// Contracts see the attestation that it is, `attestation_of`.
#[derive(Clone, Copy)]
pub enum AttestationRef<'a> {
    /// A calendar promises to complete the path. It is to be asked at this URI.
    Pending(UriRef<'a>),
    /// The message is the Merkle root of the Bitcoin block at this height.
    Bitcoin(u64),
    /// The message is the Merkle root of the Litecoin block at this height.
    Litecoin(u64),
    /// An attestation of any other kind.
    Unknown(OtherRef<'a>),
}

impl<'a> AttestationRef<'a> {
    /// The same attestation with a URI or payload of its own, in memory of `alloc`, which it keeps.
    pub fn to_owned(self, alloc: Global) -> Result<Attestation, OutOfMemory>
        ensures { IfOk result (λ owned. owned ≡ attestation_of self.entry) }
    {
        Ok(match self {
            AttestationRef::Pending(uri) => Attestation::Pending(uri.to_owned(alloc)?),
            AttestationRef::Bitcoin(height) => Attestation::Bitcoin(height),
            AttestationRef::Litecoin(height) => Attestation::Litecoin(height),
            AttestationRef::Unknown(other) => Attestation::Unknown(other.to_owned(alloc)?),
        })
    }
}

impl<'a> OtherRef<'a> {
    /// The same attestation with a payload of its own, in memory of `alloc`, which it keeps.
    #[tactic(auto, using(crate::proofs::OneAttestation::same_other))]
    pub fn to_owned(self, alloc: Global) -> Result<Other, OutOfMemory>
        ensures { IfOk result (λ owned. owned ≡ other_of self.entry) }
    {
        let payload = Payload::new(alloc, self.payload)?;
        let parts = OtherParts {
            kind: self.kind,
            payload,
        };
        Other::new(alloc, parts)
    }
}
