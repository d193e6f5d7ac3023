//! Reading the tokens of a tree that comes in pieces.
ghost use Rattle.std.specs.Prelude.{◌≡◌, ◌<◌, ◌≤◌, ◌+◌, ◌^◌, length, IfOk};
ghost use Rattle.std.specs.Borrow.{sem};
ghost use Rattle.ots_tree.specs.Wire.{spelled};
ghost use Rattle.ots_reader.specs.Resting.{Rests};
ghost use Rattle.ots_reader.specs.Tokens.{begun, so_far, IsReading, Leaves, Nexts, IsExactNext};

use crate::arrived::{Arrived, read_next};
use crate::cut::MAX_KEPT;
use crate::fault::Fault;
use crate::front::MAX_OTHERS;
use crate::next::Next;
use ots_base::{MAX_MESSAGE, MAX_OPERATIONS, OutOfMemory};
use ots_tree::Shape;
use std::alloc::Global;
use std::marker::Model;

/// How many bytes of memory a reader of tokens takes, all of it when it is begun: for the bytes of one
/// token, and eight for each node that may be open besides the last one.
pub const TOKEN_READER_BYTES: usize = MAX_KEPT + 8 * MAX_OTHERS;

/// The tokens of a tree that comes in pieces, one by one.
///
/// All its memory is taken when it is begun: for the bytes of one token, at most 8203, with 64 after
/// them, and for the 256 nodes that may be open besides the last one. However the bytes are cut, the
/// time is that of reading each of them a few times.
///
/// Contracts see what the tree is read below, the tokens that have come, the first bytes of the next
/// one, and how many bytes of memory it has taken.
#[derive(Drop)]
pub struct TokenReader {
    arrived: Arrived,
}

impl Model for TokenReader {
    ghost use Rattle.ots_reader.specs.Tokens.{Tokens};

    ghost Value = { Tokens };

    ghost use Rattle.ots_reader.specs.Arrived.{tokens_of, IsHeld};

    ghost view = { λ r. tokens_of r.arrived };

    ghost invariant = { λ r. IsHeld r.arrived };
}

impl TokenReader {
    /// No byte yet of the tree that stands below a message of `shape.length` bytes, 1 to 4096, and
    /// `shape.depth` operations, at most 255.
    pub fn begin(alloc: Global, shape: Shape) -> Result<TokenReader, OutOfMemory>
        requires least { 1 ≤ shape.length }
        requires greatest { shape.length ≤ MAX_MESSAGE }
        requires depth { shape.depth ≤ MAX_OPERATIONS }
        ensures begun { IfOk result (λ r. r ≡ begun shape) }
        ensures reading { IfOk result (λ r. IsReading r) }
    {
        Ok(TokenReader {
            arrived: Arrived::begin(alloc, shape)?,
        })
    }

    /// Sets anew what the tree stands below, 1 to 4096 bytes and at most 255 operations, before its
    /// first byte. It takes no memory.
    pub fn place_below(&mut self, shape: Shape)
        requires begun { self.old ≡ begun self.old.shape }
        requires least { 1 ≤ shape.length }
        requires greatest { shape.length ≤ MAX_MESSAGE }
        requires depth { shape.depth ≤ MAX_OPERATIONS }
        ensures begun { self.new ≡ begun shape }
        ensures reading { IsReading self.new }
    {
        self.arrived.place_below(shape);
    }

    /// The next token, where it ends within the piece, and whether it is the last one. The next piece
    /// begins after the bytes that belong to it. Where the token goes on after the piece there is none,
    /// and all of the piece has been taken. Otherwise the token is none or can't stand where it is, for
    /// another reason than that the bytes end. It takes no memory.
    ///
    /// Nothing is read after the tree's last token or after a fault, and fewer than 2^64 bytes in all.
    #[inline(always)]
    pub fn next<'a>(&'a mut self, piece: &'a [u8]) -> Result<Option<Next<'a>>, Fault>
        requires reading { IsReading self.old }
        requires few { length (so_far self.old) + length piece.now < 2 ^ 64 }
        ensures next { Nexts self.old piece.now result }
        ensures exact { IsExactNext self.old piece.now result }
        ensures* rests { sem 𝓛 (Rests self.entry (Leaves self.old piece.now result)) }
    {
        read_next(&mut self.arrived, piece)
    }

    /// How many bytes of memory it has taken: `TOKEN_READER_BYTES`, from `begin` on.
    pub fn reserved(&self) -> usize
        ensures is { result ≡ self.now.reserved }
        ensures always { result ≡ TOKEN_READER_BYTES }
    {
        self.arrived.kept.capacity() + 8 * self.arrived.front.walk.room()
    }

    /// How many bytes the tokens take that have come.
    pub fn place(&self) -> u64
        ensures { result ≡ length (spelled self.now.came) }
    {
        self.arrived.front.place
    }
}
