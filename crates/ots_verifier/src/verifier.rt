//! Verifying a proof file that comes in pieces.
ghost use Rattle.std.specs.Prelude.{◌≡◌, ◌≤◌, ◌++◌, [], IfOk};
ghost use Rattle.std.specs.Option.{option_copied};
ghost use Rattle.ots_verifier.specs.Checked.{Checks, IsExactCheck};

use crate::checked::{CheckError, Checked};
use crate::following::FOLLOWING_BYTES;
use crate::outcome::found;
use crate::progress::{MAX_HEADER, Progress, advance};
use ots_base::{GhostBytes, OutOfMemory};
use ots_headers::Headers;
use std::alloc::Global;
use std::marker::Model;

/// How many bytes the buffers of a verifier have, all of them taken when it is begun: 256 rows of 4096
/// bytes for the messages of open nodes, with two bytes for the length of each; a reader of tokens; and the
/// 65 bytes of the longest header.
pub const VERIFIER_BYTES: usize = FOLLOWING_BYTES + MAX_HEADER;

/// A proof file that comes in pieces, and what it confirms by given headers.
///
/// It keeps no tree: of the bytes those of one token, and the message of each open node, of which at most
/// 256 are open. No call but `begin` takes memory. Each operation of the tree is applied once, as it comes.
///
/// Contracts see the headers, the bytes so far, and how many bytes of memory are taken.
#[derive(Drop)]
pub struct Verifier<'a> {
    bitcoin: &'a Headers,
    litecoin: Option<&'a Headers>,
    progress: Progress,
    // Which bytes have come, for contracts alone.
    fed: GhostBytes,
}

impl<'a> Model for Verifier<'a> {
    ghost use Rattle.std.specs.Prelude.{◌≡◌, ◌+◌};
    ghost use Rattle.std.specs.Option.{option_copied};
    ghost use Rattle.ots_verifier.specs.Checked.{Pieces};
    ghost use Rattle.ots_verifier.specs.Following.{reserved_by};
    ghost use Rattle.ots_verifier.specs.Progress.{HasCome};
    ghost use Rattle.ots_verifier.specs.declared.following.TheConstants.{FOLLOWING_BYTES};
    ghost use Rattle.ots_verifier.specs.declared.progress.TheConstants.{MAX_HEADER};

    ghost Value = { Pieces };

    ghost view = { λ v. record {
      bitcoin = v.bitcoin.now;
      litecoin = option_copied v.litecoin;
      bytes = v.fed.bytes;
      reserved = reserved_by v.progress.following + MAX_HEADER;
    } };

    ghost invariant = { λ v. HasCome v.bitcoin.now (option_copied v.litecoin) v.fed.bytes v.progress
        × (reserved_by v.progress.following ≡ FOLLOWING_BYTES) };
}

impl<'a> Verifier<'a> {
    /// No byte yet, by the headers of Bitcoin, and those of Litecoin where they are given. All memory is
    /// taken.
    pub fn begin(
        alloc: Global,
        bitcoin: &'a Headers,
        litecoin: Option<&'a Headers>,
    ) -> Result<Verifier<'a>, OutOfMemory>
        ensures { IfOk result (λ v. v ≡ record {
          bitcoin = bitcoin.entry.now;
          litecoin = option_copied litecoin.entry;
          bytes = [];
          reserved = VERIFIER_BYTES;
        }) }
    {
        Ok(Verifier {
            bitcoin,
            litecoin,
            progress: Progress::begin(alloc)?,
            fed: GhostBytes::nothing(),
        })
    }

    /// Takes the next piece. It takes no memory.
    pub fn feed(&mut self, piece: &[u8])
        ensures bitcoin { self.new.bitcoin ≡ self.old.bitcoin }
        ensures litecoin { self.new.litecoin ≡ self.old.litecoin }
        ensures bytes { self.new.bytes ≡ self.old.bytes ++ piece.now }
        ensures reserved { self.new.reserved ≡ self.old.reserved }
    {
        advance(&mut self.progress, piece, self.bitcoin, self.litecoin);
        self.fed = self.fed.and(piece);
    }

    /// What the proof confirms whose file the pieces joined are, or why they are none: `TooBig` exactly where
    /// they have more than 4,194,304 bytes, whatever they are, and `BadProof` with the one fault that they
    /// have. It takes no memory.
    pub fn finish(self) -> Result<Checked, CheckError>
        ensures checks { Checks self.entry.bitcoin self.entry.litecoin self.entry.bytes result }
        ensures exact { IsExactCheck self.entry.bitcoin self.entry.litecoin self.entry.bytes result }
    {
        let Verifier { progress, .. } = self;
        found(&progress)
    }

    /// How many bytes of memory its buffers have: the same from `begin` on, for every file, and at most
    /// 1,060,000.
    pub fn reserved(&self) -> u64
        ensures is { result ≡ self.now.reserved }
        ensures always { result ≡ VERIFIER_BYTES }
        ensures at_most { result ≤ 1060000 }
    {
        (self.progress.following.reserved() + MAX_HEADER) as u64
    }
}
