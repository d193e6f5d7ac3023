//! The sum of the lines of a sheet.
ghost use Rattle.std.specs.Prelude.{◌≡◌, ◌≤◌, ◌++◌, [], length};
ghost use Rattle.hex.specs.Hex.{encode_lower};
ghost use Rattle.sha2.specs.Sha256.{sha256};

use ots_base::GhostBytes;
use sha2::{Digest, Sha256};
use std::marker::Model;

/// How many bytes are turned into digits at once.
const PIECE: usize = 64;

/// The SHA-256 of a sheet's lines, which come in pieces. It takes no memory.
///
/// Contracts see the list of the bytes that came.
#[derive(Drop)]
pub struct LinesSum {
    hasher: Sha256,
    // What came, for contracts alone.
    fed: GhostBytes,
}

impl Model for LinesSum {
    ghost use Rattle.std.specs.Prelude.{ℕ, List};
    ghost use Rattle.sha2.specs.Hashers.{Holds256};

    ghost Value = { List ℕ };

    ghost view = { λ s. s.fed.bytes };

    ghost invariant = { λ s. Holds256 s.hasher s.fed.bytes };
}

impl LinesSum {
    /// Nothing came yet.
    pub fn new() -> LinesSum
        ensures { result ≡ [] }
    {
        LinesSum {
            hasher: Sha256::new(),
            fed: GhostBytes::nothing(),
        }
    }

    /// These bytes come next.
    pub fn add(&mut self, bytes: &[u8])
        ensures { self.new ≡ self.old ++ bytes.now }
    {
        self.fed = self.fed.and(bytes);
        self.hasher.update(bytes);
    }

    /// The lower-case hexadecimal digits of these bytes come next.
    pub fn add_hex(&mut self, bytes: &[u8])
        ensures { self.new ≡ self.old ++ encode_lower bytes.now }
    {
        let mut done = 0;
        while done < bytes.len() {
            let end = bytes.len().min(done + PIECE);
            self.add_piece(&bytes[done..end]);
            done = end;
        }
    }

    /// The same of a piece.
    fn add_piece(&mut self, bytes: &[u8])
        requires { length bytes.now ≤ PIECE }
        ensures { self.new ≡ self.old ++ encode_lower bytes.now }
    {
        let mut digits = [0; 2 * PIECE];
        let room = &mut digits[..2 * bytes.len()];
        if hex::encode_to_slice(bytes, room).is_ok() {
            self.add(room);
        }
    }

    /// The SHA-256 of all that came.
    pub fn digest(self) -> [u8; 32]
        ensures { result ≡ sha256 self }
    {
        let LinesSum { hasher, fed: _ } = self;
        hasher.finalize()
    }
}
