//! How far a proof file has come.
ghost use Rattle.std.specs.Prelude.{◌≡◌, ◌+◌, ◌<◌, ◌≤◌, ◌++◌, [], List, ℕ, Option, IfOk, length, min, take, drop};
ghost use Rattle.std.specs.Option.{option_copied};
ghost use Rattle.ots_headers.specs.HeaderTable.{Table};
ghost use Rattle.ots_detached.specs.File.{IsHeader};
ghost use Rattle.ots_verifier.specs.Following.{Follows, IsFresh, reserved_by};
ghost use Rattle.ots_verifier.specs.Progress.{HasCome, IsGathering};
ghost use Rattle.ots_verifier.specs.Stage.{IsAt, Stands};

use crate::following::{FOLLOWING_BYTES, Following};
use crate::stage::{Stage, read_after};
use ots_base::{MAX_PROOF_FILE, OutOfMemory};
use ots_detached::{FileHeader, read_header};
use ots_headers::Headers;
use ots_ops::Digest;
use ots_tree::Shape;
use std::alloc::Global;

/// The most bytes that stand before the tree: 33, and the digest of SHA-256.
pub(crate) const MAX_HEADER: usize = 65;

/// What is kept of a proof file that comes in pieces.
#[derive(Drop)]
pub(crate) struct Progress {
    /// The tree.
    pub following: Following,
    /// The first bytes, until the header is whole.
    pub header: [u8; MAX_HEADER],
    /// How many bytes have come, unless they are too many.
    pub count: usize,
    /// What has become of them.
    pub state: State,
}

impl Progress {
    /// No byte yet. It takes the memory for all that comes.
    pub fn begin(alloc: Global) -> Result<Progress, OutOfMemory>
        ensures none { IfOk result (λ p. (bitcoin : Table) (litecoin : Option Table) → HasCome bitcoin litecoin [] p) }
        ensures reserved { IfOk result (λ p. reserved_by p.following ≡ FOLLOWING_BYTES) }
    {
        Ok(Progress {
            following: Following::begin(alloc)?,
            header: [0; MAX_HEADER],
            count: 0,
            state: State::Header,
        })
    }
}

/// What has become of the bytes that have come.
#[derive(Clone, Copy)]
pub(crate) enum State {
    /// The header is not whole, or is none.
    Header,
    /// The header is whole.
    After(Stage),
    /// They are more than a proof file may have.
    TooBig,
}

/// Takes one more piece. It takes no memory.
pub(crate) fn advance(
    progress: &mut Progress,
    piece: &[u8],
    bitcoin: &Headers,
    litecoin: Option<&Headers>,
)
    requires { (bytes : List ℕ) × HasCome bitcoin.now (option_copied litecoin) bytes progress.old }
    ensures come { (bytes : List ℕ) → HasCome bitcoin.now (option_copied litecoin.entry) bytes progress.old
        → HasCome bitcoin.now (option_copied litecoin.entry) (bytes ++ piece.now) progress.new }
    ensures reserved { reserved_by progress.new.following ≡ reserved_by progress.old.following }
{
    if piece.len() > MAX_PROOF_FILE - progress.count {
        progress.state = State::TooBig;
        return;
    }
    match progress.state {
        State::Header => gather(progress, piece, bitcoin, litecoin),
        State::After(stage) => {
            let next = read_after(
                stage,
                &mut progress.following,
                progress.count,
                piece,
                bitcoin,
                litecoin,
            );
            progress.state = State::After(next);
            progress.count += piece.len();
        }
        State::TooBig => {}
    }
}

/// Takes one more piece, where the header has not come whole.
fn gather(progress: &mut Progress, piece: &[u8], bitcoin: &Headers, litecoin: Option<&Headers>)
    requires gathering { (bytes : List ℕ) × IsGathering bytes progress.old }
    requires in_header { progress.old.state ≡ State.Header }
    requires size { progress.old.count + length piece.now ≤ MAX_PROOF_FILE }
    ensures come { (bytes : List ℕ) → IsGathering bytes progress.old
        → HasCome bitcoin.now (option_copied litecoin.entry) (bytes ++ piece.now) progress.new }
    ensures reserved { reserved_by progress.new.following ≡ reserved_by progress.old.following }
{
    if progress.count >= MAX_HEADER {
        progress.count += piece.len();
        return;
    }
    let end = keep_prefix(&mut progress.header, progress.count, piece);
    let rest = &piece[end - progress.count..];
    progress.count += piece.len();
    let gathered = progress.header;
    if let Ok(header) = read_header(&gathered[..end]) {
        let following = &mut progress.following;
        let stage = enter(following, header, &gathered[..end], rest, bitcoin, litecoin);
        progress.state = State::After(stage);
    }
}

/// Keeps the piece after the first `count` bytes, as far as there is room. How many are kept then.
fn keep_prefix(header: &mut [u8; MAX_HEADER], count: usize, piece: &[u8]) -> usize
    requires { count ≤ MAX_HEADER }
    ensures end { result ≡ min (count + length piece.now) MAX_HEADER }
    ensures within { result ≤ length header.new }
    ensures kept { take result header.new ≡ take MAX_HEADER (take count header.old ++ piece.now) }
{
    let taken = piece.len().min(MAX_HEADER - count);
    put_at(header, count, &piece[..taken]);
    count + taken
}

/// Puts these bytes after the first `count` bytes of the header.
fn put_at(header: &mut [u8], count: usize, bytes: &[u8])
    requires { count + length bytes.now ≤ length header.old }
    ensures { header.new ≡ take count header.old ++ bytes.now ++ drop (count + length bytes.now) header.old }
{
    header[count..count + bytes.len()].copy_from_slice(bytes);
}

/// Goes on after a header that has come whole, with the bytes that were gathered after it and the rest
/// of the piece.
fn enter(
    following: &mut Following,
    header: FileHeader,
    gathered: &[u8],
    rest: &[u8],
    bitcoin: &Headers,
    litecoin: Option<&Headers>,
) -> Stage
    requires fresh { IsFresh following.old }
    requires header { IsHeader gathered.now header.hash header.digest }
    requires size { length gathered.now + length rest.now ≤ MAX_PROOF_FILE }
    ensures at { IsAt bitcoin.now (option_copied litecoin.entry) (gathered.now ++ rest.now) result following.new }
    ensures reserved { reserved_by following.new ≡ reserved_by following.old }
{
    let start = 33 + header.digest.bytes().len();
    begin_tree(following, &header.digest);
    let stage = read_after(
        Stage::Tree(header),
        following,
        start,
        &gathered[start..],
        bitcoin,
        litecoin,
    );
    read_after(stage, following, gathered.len(), rest, bitcoin, litecoin)
}

/// Begins the tree on a digest.
fn begin_tree(following: &mut Following, digest: &Digest)
    requires { IsFresh following.old }
    ensures follows { (bitcoin : Table) (litecoin : Option Table)
        → Follows bitcoin litecoin digest.now following.new.reader following.new.messages.position
        following.new.best }
    ensures none { following.new.reader.kept ≡ [] }
    ensures no_tokens { following.new.reader.came ≡ [] }
    ensures reserved { reserved_by following.new ≡ reserved_by following.old }
{
    let bytes = digest.bytes();
    following.reader.place_below(Shape {
        length: bytes.len() as u32,
        depth: 0,
    });
    following.messages.start(bytes);
}
