//! Reading an attestation from its kind and payload.
ghost use Rattle.std.specs.Prelude.{◌≡◌, ◌≤◌, length, Some, Ok, Err, IfOk, IfErr};
ghost use Rattle.std.specs.List.{list_all};
ghost use Rattle.ots_base.specs.Memory.{UnlessOutOfMemory};
ghost use Rattle.ots_varint.specs.Reading.{reading, IsSpelledAt};
ghost use Rattle.ots_varint.specs.declared.reading.VaruintRead.TheVariants.{Value};
ghost use Rattle.ots_attest.specs.AttestationRef.{attestation_of};
ghost use Rattle.ots_attest.specs.Kind.{IsUnknown};
ghost use Rattle.ots_attest.specs.Uri.{is_uri_byte};
ghost use Rattle.ots_attest.specs.PayloadFault.{payload_fault, IsOf};
ghost use Rattle.ots_attest.specs.PayloadRead.{UriGives, HeightGives, IsFault};
ghost use Rattle.ots_attest.specs.declared.attestation.Attestation.{Attestation};

use crate::attestation::{Attestation, BITCOIN, LITECOIN, PENDING};
use crate::attestation_ref::AttestationRef;
use crate::other::copy_kind;
use crate::other_ref::OtherRef;
use crate::uri_ref::UriRef;
use ots_base::{MAX_PAYLOAD, MAX_URI, are_bytes};
use ots_varint::{VaruintRead, read_varuint};
use std::alloc::Global;
use thiserror::Error;

/// Why a payload is none of its kind.
#[derive(Clone, Copy, Debug, PartialEq, Eq, Error)]
pub enum PayloadError {
    /// A URI is longer than 1000 bytes, or has a byte that is not allowed.
    #[error("the URI is too long or has a byte that is not allowed")]
    BadUri,
    /// Bytes follow the URI or the height.
    #[error("bytes follow the payload")]
    PayloadRest,
    /// The payload ends within its number or its URI.
    #[error("the payload ends too early")]
    PayloadShort,
    /// The payload's number is not in its shortest form, or is 2^64 or more.
    #[error("the payload's number is not in its shortest form or too large")]
    PayloadVaruint,
    /// Memory ran out.
    #[error("out of memory")]
    OutOfMemory,
}

/// The attestation of this kind and payload, which has at most `MAX_PAYLOAD` bytes, 8192. It is
/// answered exactly where there is one, and otherwise what is wrong with the payload, of which the
/// first fault is named: first its number, then the URI's length, the bytes that are there, the
/// URI's characters, and bytes that follow. A payload of an unknown kind has no fault.
pub fn from_payload(
    alloc: Global,
    kind: [u8; 8],
    payload: &[u8],
) -> Result<Attestation, PayloadError>
    requires { length payload.now ≤ MAX_PAYLOAD }
    ensures ok { IfOk result (λ a. IsOf kind payload.now a) }
    ensures err { IfErr result (λ e. IsFault (payload_fault kind payload.now) e) }
    ensures accepts { (a : Attestation) → IsOf kind payload.now a
        → UnlessOutOfMemory PayloadError.OutOfMemory result (Ok a) }
    ensures refuses { (e : PayloadError) → payload_fault kind payload.now ≡ Some e
        → UnlessOutOfMemory PayloadError.OutOfMemory result (Err e) }
{
    read_owned(alloc, kind, payload)
}

/// The attestation that is read, in memory of its own.
fn read_owned(alloc: Global, kind: [u8; 8], payload: &[u8]) -> Result<Attestation, PayloadError>
    requires { length payload.now ≤ MAX_PAYLOAD }
    ensures ok { IfOk result (λ a. IsOf kind payload.now a) }
    ensures err { IfErr result (λ e. IsFault (payload_fault kind payload.now) e) }
{
    match read_payload(kind, payload)?.to_owned(alloc) {
        Ok(attestation) => Ok(attestation),
        Err(_) => Err(PayloadError::OutOfMemory),
    }
}

/// The attestation of this kind and payload, whose URI or payload stands in these bytes, of which
/// there are at most `MAX_PAYLOAD`, 8192. It takes no memory.
///
/// It is answered exactly where there is one, and otherwise the first fault, as by `from_payload`,
/// but never `OutOfMemory`.
#[tactic(auto, using(crate::proofs::PayloadOrFault::not_kind), unfolding(crate::specs::PayloadFault::payload_fault))]
#[inline(always)]
pub fn read_payload<'a>(
    kind: [u8; 8],
    payload: &'a [u8],
) -> Result<AttestationRef<'a>, PayloadError>
    requires { length payload.now ≤ MAX_PAYLOAD }
    ensures ok { IfOk result (λ a. IsOf kind payload.now (attestation_of a)) }
    ensures err { IfErr result (λ e. payload_fault kind payload.now ≡ Some e) }
{
    if kind == PENDING {
        return Ok(AttestationRef::Pending(read_uri(payload)?));
    }
    if kind == BITCOIN {
        return Ok(AttestationRef::Bitcoin(read_height(payload)?));
    }
    if kind == LITECOIN {
        return Ok(AttestationRef::Litecoin(read_height(payload)?));
    }
    Ok(read_other(kind, payload))
}

/// The attestation of this unknown kind.
fn read_other<'a>(kind: [u8; 8], payload: &'a [u8]) -> AttestationRef<'a>
    requires unknown { IsUnknown kind }
    requires few { length payload.now ≤ MAX_PAYLOAD }
    ensures { IsOf kind payload.now (attestation_of result) }
{
    let kind = copy_kind(&kind);
    are_bytes(payload);
    AttestationRef::Unknown(OtherRef { kind, payload })
}

/// The URI after its length.
fn read_uri<'a>(payload: &'a [u8]) -> Result<UriRef<'a>, PayloadError>
    ensures { UriGives payload.now (reading payload.now) result }
{
    match read_varuint(payload) {
        VaruintRead::Value(length, used) => uri_after(payload, length, used),
        VaruintRead::Short => Err(PayloadError::PayloadShort),
        VaruintRead::NonMinimal | VaruintRead::TooLarge => Err(PayloadError::PayloadVaruint),
    }
}

/// The URI of this length, after the `used` bytes that spell the length.
fn uri_after<'a>(payload: &'a [u8], length: u64, used: usize) -> Result<UriRef<'a>, PayloadError>
    requires { IsSpelledAt payload.now length used }
    ensures { UriGives payload.now (Value length used) result }
{
    if length > MAX_URI as u64 {
        return Err(PayloadError::BadUri);
    }
    let end = used + length as usize;
    if payload.len() < end {
        return Err(PayloadError::PayloadShort);
    }
    let Ok(text) = str::from_utf8(&payload[used..end]) else {
        return Err(PayloadError::BadUri);
    };
    let Ok(uri) = UriRef::new(text) else {
        return Err(PayloadError::BadUri);
    };
    if end < payload.len() {
        return Err(PayloadError::PayloadRest);
    }
    Ok(uri)
}

/// The height, which is the whole payload.
#[inline(always)]
fn read_height(payload: &[u8]) -> Result<u64, PayloadError>
    ensures { HeightGives payload.now (reading payload.now) result }
{
    match read_varuint(payload) {
        VaruintRead::Value(height, used) => {
            if used < payload.len() {
                return Err(PayloadError::PayloadRest);
            }
            Ok(height)
        }
        VaruintRead::Short => Err(PayloadError::PayloadShort),
        VaruintRead::NonMinimal | VaruintRead::TooLarge => Err(PayloadError::PayloadVaruint),
    }
}
