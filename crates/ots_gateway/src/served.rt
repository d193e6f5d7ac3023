//! How a link of a round was served.

use ots_tree::Tree;

/// How a link of a round was served.
#[derive(Debug, Drop)]
pub enum GateServed {
    /// A digest was timestamped: the reply with this tree was written.
    Stamped(Tree),
    /// Another reply was written, with this status.
    Replied(u16),
    /// The link ended before its first byte.
    Closed,
    /// A call of the link failed, and the link has counted the fault. It may have taken a prefix of the
    /// reply.
    LinkFault,
}
