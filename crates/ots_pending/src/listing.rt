//! Pairs in the order in which they are found.
use crate::distinct::Distinct;
use crate::kept_pair::KeptPair;

/// Distinct pairs in the order in which they are found, and the distinct messages that they ask for.
#[derive(Drop)]
pub(crate) struct Listing {
    /// The messages, each of them once.
    pub(crate) messages: Distinct,
    /// The keys of the pairs, by which a pair is found.
    pub(crate) keys: Distinct,
    /// The pairs.
    pub(crate) asked: Vec<KeptPair>,
}
