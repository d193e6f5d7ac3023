//! The tags of operations: the bytes with which they are spelled first (python-opentimestamps,
//! `core/op.py`, `TAG`).

/// The tag of SHA-1.
pub const SHA1_TAG: u8 = 0x02;

/// The tag of RIPEMD-160.
pub const RIPEMD160_TAG: u8 = 0x03;

/// The tag of SHA-256.
pub const SHA256_TAG: u8 = 0x08;

/// The tag of KECCAK-256, which the reference library knows and this one doesn't.
pub const KECCAK256_TAG: u8 = 0x67;

/// The tag of an append.
pub const APPEND_TAG: u8 = 0xf0;

/// The tag of a prepend.
pub const PREPEND_TAG: u8 = 0xf1;

/// The tag of a reverse.
pub const REVERSE_TAG: u8 = 0xf2;

/// The tag of a hexlify.
pub const HEXLIFY_TAG: u8 = 0xf3;
