//! The header of a proof file.
ghost use Rattle.std.specs.Prelude.{◌≡◌, ◌+◌, ◌<◌, length, take, drop, slice_get, None, Some, IfOk, IfErr, IfSome};
ghost use Rattle.std.specs.Prelude.{IfNone};
ghost use Rattle.std.specs.Result.{result_err};
ghost use Rattle.ots_ops.specs.HashOp.{tag, digest_length};
ghost use Rattle.ots_detached.specs.File.{IsHeader};
ghost use Rattle.ots_detached.specs.FileFault.{header_fault, magic_fault, version_fault, hash_fault};

use ots_ops::{Digest, HashOp, KECCAK256_TAG, RIPEMD160_TAG, SHA1_TAG, SHA256_TAG};
use ots_reader::{Fault, Reason};

/// The first bytes of a proof file: a zero byte, `OpenTimestamps`, two zero bytes, `Proof`, a zero
/// byte, and eight bytes that no text has.
pub const MAGIC: [u8; 31] = [
    0x00, 0x4f, 0x70, 0x65, 0x6e, 0x54, 0x69, 0x6d, 0x65, 0x73, 0x74, 0x61, 0x6d, 0x70, 0x73, 0x00,
    0x00, 0x50, 0x72, 0x6f, 0x6f, 0x66, 0x00, 0xbf, 0x89, 0xe2, 0xe8, 0x84, 0xe8, 0x92, 0x94,
];

/// What stands in a proof file before the tree: what the file is a proof of.
#[derive(Clone, Copy)]
pub struct FileHeader {
    /// The hash of the file.
    pub hash: HashOp,
    /// The digest of the file, 20 or 32 bytes.
    pub digest: Digest,
}

/// The header that a proof file with these bytes begins with, which is 53 or 65 bytes long, or what is
/// wrong with it: of the magic bytes, the version, the tag of the hash and the digest the first that is
/// cut or is another.
pub fn read_header(bytes: &[u8]) -> Result<FileHeader, Fault>
    ensures ok { IfOk result (λ header. IsHeader bytes.now header.hash header.digest) }
    ensures err { IfErr result (λ fault. header_fault bytes.now ≡ Some fault) }
{
    if let Some(fault) = magic_fault(bytes) {
        return Err(fault);
    }
    if let Some(fault) = version_fault(bytes) {
        return Err(fault);
    }
    let hash = match read_hash(bytes) {
        Ok(hash) => hash,
        Err(fault) => return Err(fault),
    };
    match read_digest(bytes, hash) {
        Some(digest) => Ok(FileHeader { hash, digest }),
        None => Err(at(33, Reason::Truncated)),
    }
}

/// A fault at this place.
fn at(place: u64, reason: Reason) -> Fault
    ensures { result ≡ record { place = place; reason = reason } }
{
    Fault { place, reason }
}

/// What is wrong with the magic bytes.
fn magic_fault(bytes: &[u8]) -> Option<Fault>
    ensures { result ≡ magic_fault bytes.now }
{
    if bytes.starts_with(&MAGIC) {
        return None;
    }
    if MAGIC.starts_with(bytes) {
        return Some(at(0, Reason::Truncated));
    }
    Some(at(0, Reason::BadMagic))
}

/// What is wrong with the version.
fn version_fault(bytes: &[u8]) -> Option<Fault>
    ensures { result ≡ version_fault bytes.now }
{
    match bytes.get(31) {
        None => Some(at(31, Reason::Truncated)),
        Some(0x01) => None,
        Some(_) => Some(at(31, Reason::BadVersion)),
    }
}

/// The hash of the file.
fn read_hash(bytes: &[u8]) -> Result<HashOp, Fault>
    ensures ok { IfOk result (λ hash. slice_get bytes.now 32 ≡ Some (tag hash)) }
    ensures fault { hash_fault bytes.now ≡ result_err result }
{
    match bytes.get(32) {
        None => Err(at(32, Reason::Truncated)),
        Some(&SHA1_TAG) => Ok(HashOp::Sha1),
        Some(&RIPEMD160_TAG) => Ok(HashOp::Ripemd160),
        Some(&SHA256_TAG) => Ok(HashOp::Sha256),
        Some(&KECCAK256_TAG) => Err(at(32, Reason::Keccak)),
        Some(_) => Err(at(32, Reason::BadHashOp)),
    }
}

/// The digest of the file, where it is whole.
fn read_digest(bytes: &[u8], hash: HashOp) -> Option<Digest>
    ensures some { IfSome result (λ digest. (digest ≡ take (digest_length hash) (drop 33 bytes.now))
        × (length digest ≡ digest_length hash)) }
    ensures none { IfNone result (length bytes.now < 33 + digest_length hash) }
{
    let end = 33 + hash.digest_length();
    if bytes.len() < end {
        return None;
    }
    Digest::new(&bytes[33..end])
}
