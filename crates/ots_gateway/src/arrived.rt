//! What is known of a link once its request was read.

use crate::waiting::Waiting;

/// What is known of a link once its request was read, and answered where it is no digest that waits.
#[derive(Clone, Copy, Debug)]
pub(crate) enum Arrived {
    /// A digest waits.
    Waits(Waiting),
    /// A reply was written, with this status.
    Replied(u16),
    /// The link ended before its first byte.
    Closed,
    /// A call of the link failed.
    LinkFault,
}
