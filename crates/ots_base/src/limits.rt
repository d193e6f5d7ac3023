//! The limits that several layers share. A limit of one type alone stands with its type.

/// The most bytes of a message, which operations are applied to, and of the result of one
/// (python-opentimestamps, `core/op.py`, `MAX_MSG_LENGTH` and `MAX_RESULT_LENGTH`).
pub const MAX_MESSAGE: usize = 4096;

/// The most bytes of the argument of an append or a prepend (python-opentimestamps, `core/op.py`,
/// which reads an argument of at most `MAX_RESULT_LENGTH` bytes).
pub const MAX_ARGUMENT: usize = 4096;

/// The most bytes that are hexlified: two digits a byte fill a message (python-opentimestamps,
/// `core/op.py`, `OpHexlify.MAX_MSG_LENGTH`).
pub const MAX_HEXLIFIED: usize = 2048;

/// The most operations on a path from the digest to an attestation. python-opentimestamps reads as
/// many and refuses one more (`core/timestamp.py`, `Timestamp.deserialize`, whose `_recursion_limit`
/// of 256 counts the messages: the digest and each result).
pub const MAX_OPERATIONS: u32 = 255;

/// The most bytes of an attestation's payload (python-opentimestamps, `core/notary.py`,
/// `MAX_PAYLOAD_SIZE`).
pub const MAX_PAYLOAD: usize = 8192;

/// The most bytes of the URI of a pending attestation (python-opentimestamps, `core/notary.py`,
/// `MAX_URI_LENGTH`).
pub const MAX_URI: usize = 1000;

/// The most bytes of the body of a calendar's reply that a client takes (python-opentimestamps,
/// `calendar.py`, `RemoteCalendar`, which reads at most as many).
pub const MAX_REPLY_BODY: usize = 10_000;

/// The most bytes of a proof file, 4 MiB. The format has no limit; this one is this project's.
pub const MAX_PROOF_FILE: usize = 4_194_304;

/// The most bytes of a file of block headers: 1,048,576 headers of 80 bytes each. The limit is this
/// project's.
pub const MAX_HEADER_FILE: u64 = 83_886_080;

/// The most bytes of a file that is timestamped or checked, 2^40. The limit is this project's.
pub const MAX_TARGET_FILE: u64 = 1_099_511_627_776;
