//! An entry of a journal, and which entries make a group.
ghost use Rattle.std.specs.Prelude.{◌≡◌, true, false};
ghost use Rattle.ots_journal.specs.Image.{FitsGroup};

use crate::{MAX_ENTRY_PAYLOAD, MAX_GROUP, MIN_ENTRY_PAYLOAD};
use ots_outside::Bytes;

/// An entry of a journal.
#[derive(Debug, Drop)]
pub struct Entry {
    /// What the layer above takes the entry for.
    pub kind: u8,
    /// `MIN_ENTRY_PAYLOAD` to `MAX_ENTRY_PAYLOAD` bytes: 44 to 1,048,576.
    pub payload: Bytes,
}

/// Whether these entries can be a group: 1 to `MAX_GROUP` of them, 1024, each with a payload of
/// `MIN_ENTRY_PAYLOAD` to `MAX_ENTRY_PAYLOAD` bytes, 44 to 1,048,576.
pub fn is_group(entries: &[Entry]) -> bool
    ensures yes { result ≡ true → FitsGroup entries.now }
    ensures no { result ≡ false → FitsGroup entries.now → ⊥ }
{
    if entries.is_empty() || entries.len() > MAX_GROUP {
        return false;
    }
    for entry in entries {
        let length = entry.payload.items().len();
        if length < MIN_ENTRY_PAYLOAD || length > MAX_ENTRY_PAYLOAD {
            return false;
        }
    }
    true
}
