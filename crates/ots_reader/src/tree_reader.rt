//! Reading a tree that comes in pieces.
ghost use Rattle.std.specs.Prelude.{◌≡◌, ℕ, ◌<◌, ◌≤◌, ◌+◌, ◌^◌, List, [], length, Err, IfOk};
ghost use Rattle.ots_reader.specs.TreeFault.{HasTreeFault};
ghost use Rattle.ots_reader.specs.declared.fault.Fault.{Fault};
ghost use Rattle.ots_reader.specs.declared.fault.ReadError.{ReadError};
ghost use Rattle.ots_reader.specs.Held.{state_after, Reads};
ghost use Rattle.ots_reader.specs.Tokens.{so_far, IsReading};
ghost use Rattle.ots_reader.specs.Progress.{MayBeFed, Feeds, IsExact, Finishes, reading};

use crate::fault::{Fault, ReadError, Reason};
use crate::fed::Fed;
use crate::token_reader::TokenReader;
use ots_base::{MAX_MESSAGE, MAX_OPERATIONS, OutOfMemory};
use ots_tree::{Shape, Tree, TreeBuilder};
use std::alloc::Global;
use std::marker::Model;

/// For the tokens of a piece of at least this length, room is made before they are read. The replies of
/// calendars, of which many trees may be held at a time, are shorter.
const LONG_PIECE: usize = 65_536;

/// That room is for tokens of this length. In most proofs they are longer: a hash takes one byte, and
/// what is hashed with it, or attests it, many.
const BYTES_OF_A_TOKEN: usize = 4;

/// A tree that comes in pieces.
///
/// It holds the tokens that have come, for each of them the number of operations before it, in four bytes, and
/// what a `TokenReader` holds, which is all of its own memory: of the bytes only those of one token. However the
/// bytes are cut, the time is that of reading each of them a few times.
///
/// Before it reads a piece of 65,536 bytes or more it makes room for a token for each four of them, where memory
/// allows, so that what it holds is seldom moved. Otherwise its memory grows with the tokens.
///
/// Contracts see what the tree is read below, and what has become of the bytes so far.
#[derive(Drop)]
pub struct TreeReader {
    reader: TokenReader,
    tokens: TreeBuilder,
    state: State,
}

/// What has become of the bytes so far.
#[derive(Clone, Copy)]
enum State {
    /// The tree goes on.
    Reading,
    /// The tree is whole.
    Whole,
    /// No tree comes.
    Refused(ReadError),
}

impl Model for TreeReader {
    ghost use Rattle.ots_reader.specs.Progress.{Reader};

    ghost Value = { Reader };

    ghost use Rattle.ots_reader.specs.Held.{progress_of, Holds};

    ghost view = { λ r. record { shape = r.reader.shape; progress = progress_of r.state r.reader r.tokens } };

    ghost invariant = { λ r. Holds r.state r.reader r.tokens };
}

impl TreeReader {
    /// No byte yet of the tree that stands below a message of `shape.length` bytes, 1 to 4096, and
    /// `shape.depth` operations, at most 255. The room for one token and for all open nodes is taken.
    pub fn begin(alloc: Global, shape: Shape) -> Result<TreeReader, OutOfMemory>
        requires least { 1 ≤ shape.length }
        requires greatest { shape.length ≤ MAX_MESSAGE }
        requires depth { shape.depth ≤ MAX_OPERATIONS }
        ensures { IfOk result (λ r. r ≡ record { shape = shape; progress = reading [] }) }
    {
        Ok(TreeReader {
            reader: TokenReader::begin(alloc, shape)?,
            tokens: TreeBuilder::new(alloc),
            state: State::Reading,
        })
    }

    /// Takes the next piece. `More` where the tree goes on after it, and `Done` in the piece with the
    /// tree's last byte, with how many bytes of the piece belong to the tree. A fault comes in the first
    /// piece after which the bytes so far have another one than that they end. After a fault, and after
    /// `OutOfMemory`, every later call answers the same.
    ///
    /// Nothing is fed after a whole tree, and fewer than 2^64 bytes in all.
    pub fn feed(&mut self, piece: &[u8]) -> Result<Fed, ReadError>
        requires { MayBeFed self.old.progress (length piece.now) }
        ensures shape { self.new.shape ≡ self.old.shape }
        ensures fed { Feeds self.old.shape self.old.progress piece.now result self.new.progress }
        ensures exact { (fed : List ℕ) → self.old.progress ≡ reading fed → IsExact self.old.shape fed piece.now result }
    {
        match self.state {
            State::Reading => {}
            State::Whole => unreachable!(),
            State::Refused(error) => return Err(error),
        }
        let answer = read_piece(&mut self.reader, &mut self.tokens, piece);
        self.state = state_after(answer);
        answer
    }

    /// The tree, where it is whole, and else the refusal that `feed` answered. Where the tree goes on, it
    /// is that the bytes end, at the place of the first token that is not whole or not there.
    pub fn finish(self) -> Result<Tree, ReadError>
        ensures finished { Finishes self.shape self.progress result }
        ensures exact { (fed : List ℕ) (f : Fault) → self.progress ≡ reading fed
            → HasTreeFault self.shape.length self.shape.depth fed f → result ≡ Err (ReadError.Fault f) }
    {
        let TreeReader {
            reader,
            tokens,
            state,
        } = self;
        match state {
            State::Reading => Err(ReadError::Fault(Fault {
                place: reader.place(),
                reason: Reason::Truncated,
            })),
            State::Whole => Ok(tokens.build()),
            State::Refused(error) => Err(error),
        }
    }
}

/// Reads the tokens that end within the piece, up to the tree's last one, and puts them after these.
#[inline(always)]
fn read_piece(
    reader: &mut TokenReader,
    tokens: &mut TreeBuilder,
    piece: &[u8],
) -> Result<Fed, ReadError>
    requires reading { IsReading reader.old }
    requires tokens { tokens.old ≡ reader.old.came }
    requires few { length (so_far reader.old) + length piece.now < 2 ^ 64 }
    ensures shape { reader.new.shape ≡ reader.old.shape }
    ensures read { Reads reader.old piece.now reader.new tokens.new result }
{
    make_room(tokens, piece);
    let alloc = tokens.allocator();
    let mut at = 0;
    loop {
        let Some(next) = reader.next(&piece[at..])? else {
            return Ok(Fed::More);
        };
        tokens.push(next.token.to_owned(alloc)?)?;
        at += next.used;
        if next.last {
            return Ok(Fed::Done(at));
        }
    }
}

/// Makes room for the tokens of a long piece. Without memory for it there is none, and each token takes
/// its own.
fn make_room(tokens: &mut TreeBuilder, piece: &[u8])
    ensures { tokens.new ≡ tokens.old }
{
    if piece.len() >= LONG_PIECE {
        let _ = tokens.reserve(piece.len() / BYTES_OF_A_TOKEN);
    }
}

/// What has become of the bytes after this answer.
fn state_after(answer: Result<Fed, ReadError>) -> State
    ensures { result ≡ state_after answer }
{
    match answer {
        Ok(Fed::More) => State::Reading,
        Ok(Fed::Done(_)) => State::Whole,
        Err(error) => State::Refused(error),
    }
}
