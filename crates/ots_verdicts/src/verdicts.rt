//! The verdicts on files.
ghost use Rattle.std.specs.Prelude.{◌≡◌};
ghost use Rattle.ots_verdicts.specs.Confirmed.{verdict_by};

/// A chain of blocks whose attestations are looked up in a table of headers.
#[derive(Clone, Copy, Debug, PartialEq, Eq)]
pub enum Chain {
    /// Bitcoin.
    Bitcoin,
    /// Litecoin.
    Litecoin,
}

/// What a proof says of a file.
#[derive(Clone, Copy, Debug, PartialEq, Eq)]
pub enum Verdict {
    /// Some path takes the digest to the Merkle root of a block that it attests.
    Yes {
        /// The chain of the block: Bitcoin where any of its blocks is confirmed.
        chain: Chain,
        /// The least height on this chain that a path confirms.
        height: u64,
        /// The time of the header there, in seconds since 1970.
        time: u32,
    },
    /// The proof is of another digest.
    NoDigest,
    /// No path takes the digest to the Merkle root of a block that it attests.
    NoPath,
}

/// A block whose Merkle root a path of a proof comes to, which attests it.
#[derive(Clone, Copy, Debug, PartialEq, Eq)]
pub struct Confirmation {
    /// The chain of the block.
    pub chain: Chain,
    /// The height of the block.
    pub height: u64,
    /// The time of its header, in seconds since 1970.
    pub time: u32,
}

impl Verdict {
    /// The verdict on a proof's own digest: `Yes` with what it confirms, or `NoPath`.
    pub fn by(confirmation: Option<Confirmation>) -> Verdict
        ensures { result ≡ verdict_by confirmation }
    {
        match confirmation {
            Some(confirmation) => Verdict::Yes {
                chain: confirmation.chain,
                height: confirmation.height,
                time: confirmation.time,
            },
            None => Verdict::NoPath,
        }
    }
}
