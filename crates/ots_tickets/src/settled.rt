use ots_ops::Ops;
use ots_round::{Receipt, Ticket};

/// A ticket whose round is closed.
#[derive(Debug, Drop)]
pub struct Settled {
    pub ticket: Ticket,
    /// Where the round's commitment is stored.
    pub receipt: Receipt,
    /// The path from the ticket's leaf to the root of the round's tree.
    pub path: Ops,
}
