ghost use Rattle.std.specs.Prelude.{◌≡◌, ◌<◌, ◌++◌, [], length, take, drop};
ghost use Rattle.ots_memory.specs.Cut.{read_count};

use crate::input::Input;
use std::marker::Model;

/// Bytes that are read once, from their start, in pieces. The read of number i gives at most
/// `pieces[i]` bytes, and at least one if it can; once the list has ended, a read gives all that
/// its buffer holds.
#[derive(Drop)]
pub struct CutInput {
    input: Input,
    pieces: Vec<usize>,
    reads: usize,
}

impl Model for CutInput {
    ghost use Rattle.std.specs.Prelude.{drop};
    ghost use Rattle.ots_memory.specs.Cut.{CutInputTold};

    ghost Value = { CutInputTold };

    ghost view = { λ i. record { left = i.input.left; given = i.input.given; pieces = drop i.reads i.pieces.items } };
}

impl CutInput {
    /// All of these bytes are left, and nothing was read.
    pub fn new(bytes: Vec<u8>, pieces: Vec<usize>) -> CutInput
        ensures { result ≡ record { left = bytes.items; given = []; pieces = pieces.items } }
    {
        CutInput {
            input: Input::new(bytes),
            pieces,
            reads: 0,
        }
    }

    /// How many bytes are left.
    pub fn left(&self) -> usize
        ensures { result ≡ length self.now.left }
    {
        self.input.left()
    }

    /// The bytes that reads have given.
    pub fn given(&self) -> &[u8]
        ensures { result.now ≡ self.now.given }
    {
        self.input.given()
    }

    /// Puts the next bytes at the start of `buf`, and answers how many.
    pub fn read(&mut self, buf: &mut [u8]) -> usize
        ensures count { result ≡ read_count self.old.left self.old.pieces (length buf.old) }
        ensures left { self.old.left ≡ take result buf.new ++ self.new.left }
        ensures given { self.new.given ≡ self.old.given ++ take result buf.new }
        ensures at_end { result ≡ 0 → 0 < length buf.old → self.new.left ≡ [] }
        ensures pieces { self.new.pieces ≡ drop 1 self.old.pieces }
    {
        let room = buf.len();
        let most = match self.pieces.get(self.reads) {
            Some(piece) => (*piece).max(1).min(room),
            None => room,
        };
        self.reads = self.reads.saturating_add(1);
        self.input.read(&mut buf[..most])
    }
}
