//! A calendar's key.
ghost use Rattle.std.specs.Prelude.{◌≡◌, ℕ, List, ◌≤◌, length, IfOk, MatchResult};
ghost use Rattle.ots_round.specs.Hmac.{filled, hmac_sha256};
ghost use Rattle.ots_round.specs.Key.{IsKey};

use crate::hmac::{MAX_KEY, filled};
use std::marker::Model;

/// The number of bytes of something that is no key: not 1 to 64.
#[derive(Clone, Copy, Debug, PartialEq, Eq)]
pub struct BadKey(pub u64);

/// The key under which a calendar signs its commitments: 1 to 64 bytes.
///
/// Contracts see the block that it fills, with zero bytes after it, under which each keyed hash is
/// the same (RFC 2104).
#[derive(Clone, Copy)]
pub struct Key {
    pub(crate) block: [u8; MAX_KEY],
}

impl Model for Key {
    ghost use Rattle.std.specs.Prelude.{◌≡◌, ℕ, List, length};

    ghost Value = { List ℕ };

    ghost view = { λ key. key.block };

    ghost invariant = { λ key. length key.block ≡ 64 };

    ghost inverse = { λ block. record { block = block } };
}

impl Key {
    /// The key of these bytes, or `BadKey` with their number exactly where they are none or more
    /// than 64.
    pub fn new(bytes: &[u8]) -> Result<Key, BadKey>
        ensures { MatchResult result (λ key. IsKey bytes.now × (key ≡ filled bytes.now))
            (λ refused. ¬ (IsKey bytes.now) × (refused.0 ≡ length bytes.now)) }
    {
        let length = bytes.len();
        if length == 0 || length > MAX_KEY {
            return Err(BadKey(length as u64));
        }
        Ok(Key {
            block: filled(bytes),
        })
    }
}
