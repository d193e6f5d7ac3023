//! Reading the next token of a tree that comes in pieces.
ghost use Rattle.std.specs.Prelude.{◌≡◌, ◌<◌, ◌+◌, ◌^◌, [], true, false, length, IfOk};
ghost use Rattle.std.specs.Borrow.{sem};
ghost use Rattle.ots_tree.specs.declared.token.Token.{Token};
ghost use Rattle.ots_reader.specs.Arrived.{tokens_of, IsHeld, IsAway, HoldsAfter, Rests};
ghost use Rattle.ots_reader.specs.Cut.{IsSpelling};
ghost use Rattle.ots_reader.specs.Front.{ComesTo};
ghost use Rattle.ots_reader.specs.OneAnswer.{IsShape};
ghost use Rattle.ots_reader.specs.Tokens.{begun, so_far, IsReading, Nexts};

use crate::cut::{MAX_KEPT, keep, read_on, token_in, whole_token};
use crate::fault::Fault;
use crate::front::{Front, place_below, take};
use crate::next::Next;
use ots_base::OutOfMemory;
use ots_tree::Shape;
use std::alloc::Global;

/// The bytes that have arrived.
#[derive(Drop)]
pub(crate) struct Arrived {
    /// The tokens that are whole.
    pub front: Front,
    /// The first bytes of the next token, or the spelling of the last one, where it was cut between pieces.
    pub kept: Vec<u8>,
    /// Whether that of the last one is kept.
    pub spent: bool,
}

impl Arrived {
    /// No byte yet. It takes the memory for all that comes.
    pub fn begin(alloc: Global, shape: Shape) -> Result<Arrived, OutOfMemory>
        requires { IsShape shape.length shape.depth }
        ensures held { IfOk result (λ arrived. IsHeld arrived) }
        ensures begun { IfOk result (λ arrived. tokens_of arrived ≡ begun shape) }
    {
        Ok(Arrived {
            front: Front::begin(alloc, shape)?,
            kept: Vec::with_capacity(alloc, MAX_KEPT)?,
            spent: false,
        })
    }

    /// Sets what the tree stands below, before its first byte.
    pub fn place_below(&mut self, shape: Shape)
        requires held { IsHeld self.old }
        requires begun { tokens_of self.old ≡ begun self.old.front.below }
        requires shape { IsShape shape.length shape.depth }
        ensures held { IsHeld self.new }
        ensures begun { tokens_of self.new ≡ begun shape }
    {
        place_below(&mut self.front, shape);
    }
}

/// The next token, where it ends within the piece.
#[inline(always)]
pub(crate) fn read_next<'a>(
    arrived: &'a mut Arrived,
    piece: &'a [u8],
) -> Result<Option<Next<'a>>, Fault>
    requires held { IsHeld arrived.old }
    requires reading { IsReading (tokens_of arrived.old) }
    requires few { length (so_far (tokens_of arrived.old)) + length piece.now < 2 ^ 64 }
    ensures next { Nexts (tokens_of arrived.old) piece.now result }
    ensures* rests { sem 𝓛 (Rests arrived.entry (HoldsAfter arrived.old piece.now result)) }
{
    put_away(arrived);
    if arrived.kept.is_empty() {
        return read_here(arrived, piece);
    }
    read_joined(arrived, piece)
}

/// The bytes of the token that came last are no longer kept.
#[inline(always)]
fn put_away(arrived: &mut Arrived)
    requires { IsHeld arrived.old }
    ensures held { IsHeld arrived.new }
    ensures away { IsAway arrived.old arrived.new }
{
    if arrived.spent {
        arrived.kept.clear();
        arrived.spent = false;
    }
}

/// The next token, of which no byte is kept. It stays where it is where it ends within the piece.
#[inline(always)]
fn read_here<'a>(arrived: &mut Arrived, piece: &'a [u8]) -> Result<Option<Next<'a>>, Fault>
    requires held { IsHeld arrived.old }
    requires reading { IsReading (tokens_of arrived.old) }
    requires few { length (so_far (tokens_of arrived.old)) + length piece.now < 2 ^ 64 }
    requires away { arrived.old.spent ≡ false }
    requires none { arrived.old.kept.items ≡ [] }
    ensures next { Nexts (tokens_of arrived.old) piece.now result }
    ensures holds { HoldsAfter arrived.old piece.now result arrived.new }
{
    let (token, used) = match whole_token(piece) {
        Ok(Some(found)) => found,
        Ok(None) => {
            keep(&mut arrived.kept, piece);
            return Ok(None);
        }
        Err(reason) => return Err(arrived.front.fault(reason)),
    };
    let last = take(&mut arrived.front, token, &piece[..used])?;
    Ok(Some(Next { token, used, last }))
}

/// The next token, of which the first bytes are kept.
fn read_joined<'a>(arrived: &'a mut Arrived, piece: &[u8]) -> Result<Option<Next<'a>>, Fault>
    requires held { IsHeld arrived.old }
    requires reading { IsReading (tokens_of arrived.old) }
    requires few { length (so_far (tokens_of arrived.old)) + length piece.now < 2 ^ 64 }
    requires away { arrived.old.spent ≡ false }
    ensures next { Nexts (tokens_of arrived.old) piece.now result }
    ensures* rests { sem 𝓛 (Rests arrived.entry (HoldsAfter arrived.old piece.now result)) }
{
    let used = match read_on(&mut arrived.kept, piece) {
        Ok(Some(used)) => used,
        Ok(None) => return Ok(None),
        Err(reason) => return Err(arrived.front.fault(reason)),
    };
    let last = take_kept(arrived)?;
    let token = token_in(&arrived.kept);
    Ok(Some(Next { token, used, last }))
}

/// The token whose spelling is kept stands at the last open node, where it can.
fn take_kept(arrived: &mut Arrived) -> Result<bool, Fault>
    requires held { IsHeld arrived.old }
    requires open { arrived.old.front.whole ≡ false }
    requires spelled { (x : Token) × IsSpelling arrived.old.kept.items x }
    requires few { arrived.old.front.place + length arrived.old.kept.items < 2 ^ 64 }
    ensures held { IsHeld arrived.new }
    ensures below { arrived.new.front.below ≡ arrived.old.front.below }
    ensures kept { arrived.new.kept.items ≡ arrived.old.kept.items }
    ensures spent { arrived.new.spent ≡ true }
    ensures came { (x : Token) → IsSpelling arrived.old.kept.items x
        → ComesTo arrived.old.front x result arrived.new.front }
{
    arrived.spent = true;
    take(&mut arrived.front, token_in(&arrived.kept), &arrived.kept)
}
