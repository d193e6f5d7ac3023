ghost use Rattle.std.specs.Prelude.{◌≡◌};
ghost use Rattle.ots_connection.specs.Answered.{is_answer};

use ots_calendar::Receipt;

/// How a connection ended.
#[derive(Clone, Copy, Debug, PartialEq, Eq)]
pub enum Served {
    /// A digest was timestamped: the reply with its tree was written, and the commitment of the
    /// receipt stands at its index.
    Stamped(Receipt),
    /// Another reply was written, with this status.
    Replied(u16),
    /// The link ended before its first byte.
    Closed,
    /// A call of the link failed, and the link has counted the fault. It may have taken a prefix of the
    /// reply.
    LinkFault,
    /// Memory ran out. Nothing was written.
    OutOfMemory,
}

impl Served {
    /// Whether the link is answered: memory did not run out.
    pub fn is_answer(&self) -> bool
        ensures { result ≡ is_answer self.now }
    {
        !matches!(self, Served::OutOfMemory)
    }
}
