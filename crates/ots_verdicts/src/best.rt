//! The least heights that were found to be confirmed.
ghost use Rattle.std.specs.Prelude.{◌≡◌};
ghost use Rattle.std.specs.Option.{option_copied, option_and_then};
ghost use Rattle.ots_verdicts.specs.Confirmed.{attests};
ghost use Rattle.ots_verdicts.specs.Walked.{confirmation_of, found_at, lesser, noted_end, nothing, verdict_of};

use crate::verdicts::{Chain, Confirmation, Verdict};
use ots_headers::Headers;

/// A height that is confirmed.
#[derive(Clone, Copy, Debug)]
pub struct Found {
    /// The height of the block.
    pub height: u64,
    /// The time of its header, in seconds since 1970.
    pub time: u32,
}

/// The least of the heights that the attestations of a tree confirm, as far as they have been noted.
#[derive(Clone, Copy, Debug)]
pub struct Best {
    /// The least of Bitcoin.
    pub bitcoin: Option<Found>,
    /// The least of Litecoin.
    pub litecoin: Option<Found>,
}

impl Best {
    /// Before anything is found.
    pub fn nothing() -> Best
        ensures { result ≡ nothing }
    {
        Best {
            bitcoin: None,
            litecoin: None,
        }
    }

    /// The least, with what the attestation of this chain's block at this height adds, which stands on
    /// this message.
    pub fn noted(
        self,
        chain: Chain,
        height: u64,
        message: &[u8],
        bitcoin: &Headers,
        litecoin: Option<&Headers>,
    ) -> Best
        ensures { result ≡ noted_end bitcoin.now (option_copied litecoin.entry) (attests chain height) message.now
            self }
    {
        match (chain, litecoin) {
            (Chain::Bitcoin, _) => Best {
                bitcoin: lesser(self.bitcoin, found_at(height, bitcoin, message)),
                litecoin: self.litecoin,
            },
            (Chain::Litecoin, Some(headers)) => Best {
                bitcoin: self.bitcoin,
                litecoin: lesser(self.litecoin, found_at(height, headers, message)),
            },
            (Chain::Litecoin, None) => self,
        }
    }

    /// The least of Bitcoin where there is one, and else of Litecoin.
    pub fn confirmation(self) -> Option<Confirmation>
        ensures { result ≡ confirmation_of self }
    {
        let (chain, found) = match (self.bitcoin, self.litecoin) {
            (Some(found), _) => (Chain::Bitcoin, found),
            (None, Some(found)) => (Chain::Litecoin, found),
            (None, None) => return None,
        };
        Some(Confirmation {
            chain,
            height: found.height,
            time: found.time,
        })
    }

    /// The verdict on the proof's own digest.
    pub(crate) fn verdict(self) -> Verdict
        ensures { result ≡ verdict_of self }
    {
        Verdict::by(self.confirmation())
    }
}

/// The height, where the message is the Merkle root of the header there.
fn found_at(height: u64, headers: &Headers, message: &[u8]) -> Option<Found>
    ensures { result ≡ found_at height headers.now message.now }
{
    let header = headers.at(height)?;
    if message != header.root.as_slice() {
        return None;
    }
    Some(Found {
        height,
        time: header.time,
    })
}

/// The one with the lesser height.
fn lesser(first: Option<Found>, second: Option<Found>) -> Option<Found>
    ensures { result ≡ lesser first second }
{
    match (first, second) {
        (Some(found), Some(other)) if other.height < found.height => Some(other),
        (Some(found), _) => Some(found),
        (None, other) => other,
    }
}
