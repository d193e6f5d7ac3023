//! The attestations of an OpenTimestamps proof: what a path of operations ends in. Read from a kind
//! and a payload, written, and ordered.
//!
//! The kinds and payloads are those of the reference library python-opentimestamps
//! (`opentimestamps/core/notary.py`).
#![tactic(auto)]

mod attestation;
mod attestation_ref;
mod laws;
mod order;
mod other;
mod other_ref;
mod payload;
mod spelling;
mod uri;
mod uri_ref;

pub use attestation::Attestation;
pub use attestation_ref::AttestationRef;
pub use laws::{
    limits_of_attestation, limits_of_borrowed_attestation, one_attestation, one_fault, one_key,
    order_of_attestations,
};
pub use other::{Other, OtherParts, Payload};
pub use other_ref::OtherRef;
pub use payload::{PayloadError, from_payload, read_payload};
pub use spelling::{MAX_SPELLED_ATTESTATION, spell_attestation};
pub use uri::{Uri, UriError};
pub use uri_ref::UriRef;
