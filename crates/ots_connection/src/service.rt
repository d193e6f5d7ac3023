use ots_attest::Uri;
use ots_calendar::Key;

/// What is a calendar's own.
#[derive(Drop)]
pub struct Service {
    /// The key under which it signs its commitments.
    pub key: Key,
    /// The URI at which it is asked later, in which its trees end.
    pub uri: Uri,
}
