//! How far a proof file has come after its header.
ghost use Rattle.std.specs.Prelude.{◌≡◌, ◌+◌, ◌^◌, ◌<◌, ◌≤◌, ◌++◌, List, ℕ, length};
ghost use Rattle.std.specs.Option.{option_copied};
ghost use Rattle.ots_detached.specs.FileFault.{at, moved};
ghost use Rattle.ots_reader.specs.declared.fault.Reason.TheVariants.{TrailingBytes};
ghost use Rattle.ots_verifier.specs.Following.{reserved_by};
ghost use Rattle.ots_verifier.specs.Stage.{IsAt, IsOpen, Stands};

use crate::following::{Following, follow_piece};
use ots_base::MAX_PROOF_FILE;
use ots_detached::FileHeader;
use ots_headers::Headers;
use ots_reader::{Fault, Fed, Reason};

/// How far a proof file has come after its header.
#[derive(Clone, Copy)]
pub(crate) enum Stage {
    /// The tree goes on.
    Tree(FileHeader),
    /// The tree is whole, and nothing is after it.
    Whole(FileHeader),
    /// It is no proof file.
    Refused(Fault),
}

/// The stage after one more piece, before which `count` bytes have come. It takes no memory.
pub(crate) fn read_after(
    stage: Stage,
    following: &mut Following,
    count: usize,
    piece: &[u8],
    bitcoin: &Headers,
    litecoin: Option<&Headers>,
) -> Stage
    requires stands { (bytes : List ℕ) × Stands bitcoin.now (option_copied litecoin) bytes count stage following.old }
    requires size { count + length piece.now ≤ MAX_PROOF_FILE }
    ensures at { (bytes : List ℕ) → Stands bitcoin.now (option_copied litecoin.entry) bytes count stage following.old
        → IsAt bitcoin.now (option_copied litecoin.entry) (bytes ++ piece.now) result following.new }
    ensures reserved { reserved_by following.new ≡ reserved_by following.old }
{
    match stage {
        Stage::Tree(header) => read_tree(header, following, count, piece, bitcoin, litecoin),
        Stage::Whole(_) => {
            if piece.is_empty() {
                stage
            } else {
                Stage::Refused(trailing(count))
            }
        }
        Stage::Refused(_) => stage,
    }
}

/// The same where the tree goes on before the piece.
fn read_tree(
    header: FileHeader,
    following: &mut Following,
    count: usize,
    piece: &[u8],
    bitcoin: &Headers,
    litecoin: Option<&Headers>,
) -> Stage
    requires stands { (bytes : List ℕ) × IsOpen bitcoin.now (option_copied litecoin) bytes header following.old
        × (count ≡ length bytes) }
    requires size { count + length piece.now ≤ MAX_PROOF_FILE }
    ensures at { (bytes : List ℕ) → IsOpen bitcoin.now (option_copied litecoin.entry) bytes header following.old
        → count ≡ length bytes
        → IsAt bitcoin.now (option_copied litecoin.entry) (bytes ++ piece.now) result following.new }
    ensures reserved { reserved_by following.new ≡ reserved_by following.old }
{
    match follow_piece(following, piece, bitcoin, litecoin) {
        Ok(Fed::More) => Stage::Tree(header),
        Ok(Fed::Done(used)) => {
            if used < piece.len() {
                Stage::Refused(trailing(count + used))
            } else {
                Stage::Whole(header)
            }
        }
        Err(fault) => Stage::Refused(moved(header, fault)),
    }
}

/// That bytes follow the tree, which ends before this place.
fn trailing(place: usize) -> Fault
    ensures { result ≡ at place TrailingBytes }
{
    Fault {
        place: place as u64,
        reason: Reason::TrailingBytes,
    }
}

/// The fault of a tree as one of the file, which begins with this header.
pub(crate) fn moved(header: FileHeader, fault: Fault) -> Fault
    requires { 33 + length header.digest + fault.place < 2 ^ 64 }
    ensures { result ≡ moved (33 + length header.digest) fault }
{
    Fault {
        place: 33 + header.digest.bytes().len() as u64 + fault.place,
        reason: fault.reason,
    }
}
