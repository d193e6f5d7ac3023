//! A pair that is asked for, as it is kept.
use ots_attest::Uri;

/// A pair of a URI and a message, as it is kept.
#[derive(Drop)]
pub(crate) struct KeptPair {
    /// The URI.
    pub(crate) uri: Uri,
    /// The number of the message.
    pub(crate) message: usize,
    /// The number of operations before the pair, where it stands deepest.
    pub(crate) depth: u32,
}
