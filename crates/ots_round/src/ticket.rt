//! A leaf that waits, and where its commitment is stored.
ghost use Rattle.std.specs.Prelude.{◌≡◌};

use ots_outside::Leaf;

/// A digest that waits for its round, or whose round is closed. It is known by its number.
#[derive(Clone, Copy, Debug)]
pub struct Ticket {
    /// Its number, which no other ticket of the calendar has.
    pub number: u64,
    /// The digest.
    pub leaf: Leaf,
    /// What is hashed after the digest, so that others cannot guess it.
    pub nonce: [u8; 16],
}

/// Where the commitment over a ticket is stored.
#[derive(Clone, Copy, Debug, PartialEq, Eq)]
pub struct Receipt {
    /// The index among all commitments of the calendar.
    pub index: u64,
    /// The commitment.
    pub commitment: [u8; 44],
}
