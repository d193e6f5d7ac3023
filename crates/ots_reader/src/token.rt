//! Reading the token at a place.
ghost use Rattle.std.specs.Prelude.{◌≡◌, ◌≢◌, ◌∷◌, Some, IfOk, IfErr};
ghost use Rattle.ots_varint.specs.Reading.{reading, IsSpelledAt};
ghost use Rattle.ots_varint.specs.declared.reading.VaruintRead.TheVariants.{Value};
ghost use Rattle.ots_attest.specs.AttestationRef.{attestation_of};
ghost use Rattle.ots_tree.specs.TokenRef.{token_of};
ghost use Rattle.ots_reader.specs.TokenFault.{token_fault, length_fault, argument_fault, attestation_fault, body_fault};
ghost use Rattle.ots_reader.specs.TokenFault.{as_reason};
ghost use Rattle.ots_reader.specs.TokenRead.{IsTokenAt, IsArgAt, IsAttestationAt, IsBodyAt};

use crate::fault::Reason;
use ots_attest::{AttestationRef, PayloadError, read_payload};
use ots_base::{MAX_ARGUMENT, MAX_PAYLOAD};
use ots_ops::{
    APPEND_TAG, ArgRef, HEXLIFY_TAG, KECCAK256_TAG, OpRef, PREPEND_TAG, REVERSE_TAG, RIPEMD160_TAG,
    SHA1_TAG, SHA256_TAG,
};
use ots_tree::TokenRef;
use ots_varint::{VaruintRead, read_varuint};

/// The token at the start of the bytes, where its parts stand, and how many of them spell it; or what
/// is wrong with the bytes. It takes no memory.
#[tactic(auto, unfolding(crate::specs::TokenFault::token_fault))]
#[inline(always)]
pub fn read_token(bytes: &[u8]) -> Result<(TokenRef<'_>, usize), Reason>
    ensures ok { IfOk result (λ r. IsTokenAt bytes.now (token_of r.0) r.1) }
    ensures err { IfErr result (λ reason. token_fault bytes.now ≡ Some reason) }
{
    match bytes.split_first() {
        Some((tag, after)) => token_after(*tag, after),
        None => Err(Reason::Truncated),
    }
}

/// The token with this tag.
#[tactic(auto, unfolding(crate::specs::TokenFault::token_fault))]
#[inline(always)]
fn token_after(tag: u8, after: &[u8]) -> Result<(TokenRef<'_>, usize), Reason>
    ensures ok { IfOk result (λ r. IsTokenAt (tag ∷ after.now) (token_of r.0) r.1) }
    ensures err { IfErr result (λ reason. token_fault (tag ∷ after.now) ≡ Some reason) }
{
    match tag {
        0x00 => {
            let (attestation, used) = read_attestation(after)?;
            Ok((TokenRef::Attestation(attestation), used + 1))
        }
        SHA1_TAG => Ok((TokenRef::Op(OpRef::Sha1), 1)),
        RIPEMD160_TAG => Ok((TokenRef::Op(OpRef::Ripemd160), 1)),
        SHA256_TAG => Ok((TokenRef::Op(OpRef::Sha256), 1)),
        KECCAK256_TAG => Err(Reason::Keccak),
        APPEND_TAG => {
            let (argument, used) = read_argument(after)?;
            Ok((TokenRef::Op(OpRef::Append(argument)), used + 1))
        }
        PREPEND_TAG => {
            let (argument, used) = read_argument(after)?;
            Ok((TokenRef::Op(OpRef::Prepend(argument)), used + 1))
        }
        REVERSE_TAG => Ok((TokenRef::Op(OpRef::Reverse), 1)),
        HEXLIFY_TAG => Ok((TokenRef::Op(OpRef::Hexlify), 1)),
        0xff => Ok((TokenRef::Fork, 1)),
        _ => Err(Reason::UnknownOp),
    }
}

/// The argument at the start of the bytes, after its length, and how many bytes both take.
#[inline(always)]
fn read_argument(bytes: &[u8]) -> Result<(ArgRef<'_>, usize), Reason>
    ensures ok { IfOk result (λ r. IsArgAt bytes.now r.0.bytes.now r.1) }
    ensures err { IfErr result (λ reason. argument_fault (reading bytes.now) bytes.now ≡ Some reason) }
{
    let (length, used) = read_length(bytes)?;
    argument_after(bytes, length, used)
}

/// The length at the start of the bytes, and how many of them spell it.
#[inline(always)]
fn read_length(bytes: &[u8]) -> Result<(u64, usize), Reason>
    ensures value { IfOk result (λ r. reading bytes.now ≡ Value r.0 r.1) }
    ensures spelled { IfOk result (λ r. IsSpelledAt bytes.now r.0 r.1) }
    ensures err { IfErr result (λ reason. length_fault (reading bytes.now) ≡ Some reason) }
{
    match read_varuint(bytes) {
        VaruintRead::Value(length, used) => Ok((length, used)),
        VaruintRead::Short => Err(Reason::Truncated),
        VaruintRead::NonMinimal => Err(Reason::NonMinimal),
        VaruintRead::TooLarge => Err(Reason::VaruintTooLarge),
    }
}

/// The argument of this length, after the `used` bytes that spell the length.
#[inline(always)]
fn argument_after(bytes: &[u8], length: u64, used: usize) -> Result<(ArgRef<'_>, usize), Reason>
    requires { IsSpelledAt bytes.now length used }
    ensures ok { IfOk result (λ r. IsArgAt bytes.now r.0.bytes.now r.1) }
    ensures err { IfErr result (λ reason. argument_fault (Value length used) bytes.now ≡ Some reason) }
{
    if length == 0 {
        return Err(Reason::ArgEmpty);
    }
    if length > MAX_ARGUMENT as u64 {
        return Err(Reason::ArgTooLong);
    }
    let end = used + length as usize;
    if bytes.len() < end {
        return Err(Reason::Truncated);
    }
    match ArgRef::new(&bytes[used..end]) {
        Ok(argument) => Ok((argument, end)),
        Err(_) => unreachable!(),
    }
}

/// The attestation at the start of the bytes, after its tag, and how many bytes it takes.
#[inline(always)]
fn read_attestation(bytes: &[u8]) -> Result<(AttestationRef<'_>, usize), Reason>
    ensures ok { IfOk result (λ r. IsAttestationAt bytes.now (attestation_of r.0) r.1) }
    ensures err { IfErr result (λ reason. attestation_fault bytes.now ≡ Some reason) }
{
    let Some((kind, body)) = bytes.split_first_chunk::<8>() else {
        return Err(Reason::Truncated);
    };
    let (attestation, used) = read_body(*kind, body)?;
    Ok((attestation, used + 8))
}

/// The attestation of this kind whose payload stands at the start of the bytes, after its length,
/// and how many bytes both take.
#[inline(always)]
fn read_body(kind: [u8; 8], bytes: &[u8]) -> Result<(AttestationRef<'_>, usize), Reason>
    ensures ok { IfOk result (λ r. IsBodyAt kind bytes.now (attestation_of r.0) r.1) }
    ensures err { IfErr result (λ reason. body_fault kind (reading bytes.now) bytes.now ≡ Some reason) }
{
    let (length, used) = read_length(bytes)?;
    body_after(kind, bytes, length, used)
}

/// The attestation whose payload has this length, after the `used` bytes that spell the length.
#[inline(always)]
fn body_after(
    kind: [u8; 8],
    bytes: &[u8],
    length: u64,
    used: usize,
) -> Result<(AttestationRef<'_>, usize), Reason>
    requires { IsSpelledAt bytes.now length used }
    ensures ok { IfOk result (λ r. IsBodyAt kind bytes.now (attestation_of r.0) r.1) }
    ensures err { IfErr result (λ reason. body_fault kind (Value length used) bytes.now ≡ Some reason) }
{
    if length > MAX_PAYLOAD as u64 {
        return Err(Reason::PayloadTooLong);
    }
    let end = used + length as usize;
    if bytes.len() < end {
        return Err(Reason::Truncated);
    }
    match read_payload(kind, &bytes[used..end]) {
        Ok(attestation) => Ok((attestation, end)),
        Err(error) => Err(reason_of(error)),
    }
}

/// The reason of this fault of a payload.
fn reason_of(error: PayloadError) -> Reason
    requires { error ≢ PayloadError.OutOfMemory }
    ensures { as_reason error ≡ Some result }
{
    match error {
        PayloadError::BadUri => Reason::BadUri,
        PayloadError::PayloadRest => Reason::PayloadRest,
        PayloadError::PayloadShort => Reason::PayloadShort,
        PayloadError::PayloadVaruint => Reason::PayloadVaruint,
        PayloadError::OutOfMemory => unreachable!(),
    }
}
