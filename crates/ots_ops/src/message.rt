//! A message that is timestamped.
ghost use Rattle.std.specs.Prelude.{◌≡◌, ◌≤◌, length, IfOk};
ghost use Rattle.ots_ops.specs.Message.{IsMessage};

use ots_base::{MAX_MESSAGE, OutOfMemory};
use std::alloc::Global;
use std::marker::Model;

/// A message, which operations are applied to: at most `MAX_MESSAGE` bytes, 4096.
///
/// Contracts see the list of these bytes.
#[derive(Debug, Drop)]
pub struct Message {
    bytes: Vec<u8>,
}

impl Model for Message {
    ghost use Rattle.std.specs.Prelude.{ℕ, List};
    ghost use Rattle.ots_ops.specs.Message.{IsMessage};

    ghost Value = { List ℕ };

    ghost view = { λ m. m.bytes.items };

    ghost invariant = { λ m. IsMessage m.bytes.items };
}

impl Message {
    /// The message of these bytes, of which there are at most 4096, in memory of `alloc`, which it
    /// keeps.
    pub fn new(alloc: Global, bytes: &[u8]) -> Result<Message, OutOfMemory>
        requires { length bytes.now ≤ MAX_MESSAGE }
        ensures { IfOk result (λ message. message ≡ bytes.now) }
    {
        let bytes = Vec::from_slice(alloc, bytes)?;
        Ok(Message { bytes })
    }

    /// The message that keeps these bytes, of which there are at most 4096.
    pub(crate) fn kept(bytes: Vec<u8>) -> Message
        requires { length bytes.items ≤ MAX_MESSAGE }
        ensures { result ≡ bytes.items }
    {
        Message { bytes }
    }

    /// The bytes, at most 4096 of them.
    pub fn bytes(&self) -> &[u8]
        ensures bytes { result.now ≡ self.now }
        ensures limits { IsMessage self.now }
    {
        self.bytes.as_slice()
    }

    /// A message of the same bytes, in memory of this one's allocator.
    pub fn copy(&self) -> Result<Message, OutOfMemory>
        ensures { IfOk result (λ copied. copied ≡ self.now) }
    {
        let bytes = self.bytes.clone()?;
        Ok(Message { bytes })
    }
}
