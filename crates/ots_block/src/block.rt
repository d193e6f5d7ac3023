//! A block.
ghost use Rattle.std.specs.Prelude.{◌≡◌, ◌<◌, ◌≤◌, ◌^◌, ℕ, [], Ok, Err, IfOk, IfErr, length, slice_index_or};
ghost use Rattle.ots_base.specs.Memory.{UnlessOutOfMemory};
ghost use Rattle.ots_headers.specs.Header.{header_in};
ghost use Rattle.ots_block.specs.Block.{Contents, IsBlock, stripped_forms, txids};
ghost use Rattle.ots_block.specs.BlockRead.{read_block, HasFault, IsBlockError};
ghost use Rattle.ots_block.specs.Ends.{stripped_in, AreWithin};
ghost use Rattle.ots_block.specs.declared.fault.BlockReason.{BlockReason};

use crate::fault::BlockError;
use crate::places::Places;
use crate::transactions::read_places;
use ots_base::OutOfMemory;
use ots_headers::{Header, double_sha256};
use std::alloc::Global;
use std::marker::Model;

/// A block: a header and its transactions, of which there is at least one. It is kept as its bytes
/// and the places of its transactions.
///
/// Contracts see the header and the list of transactions.
#[derive(Drop)]
pub struct Block {
    bytes: Vec<u8>,
    places: Vec<Places>,
}

impl Model for Block {
    ghost use Rattle.ots_block.specs.Block.{Contents};
    ghost use Rattle.ots_block.specs.Kept.{contents_in, IsKept};

    ghost Value = { Contents };

    ghost view = { λ b. contents_in b.bytes.items };

    ghost invariant = { λ b. IsKept b.bytes.items (contents_in b.bytes.items) b.places.items };
}

impl Block {
    /// The block that these bytes are, in memory of `alloc`. It takes a copy of the bytes and 32
    /// bytes a transaction.
    ///
    /// `BadBlock` comes exactly where the bytes are no block, with the first field in the order of
    /// the bytes that is wrong. Bytes are a block or have one fault, and never both.
    pub fn read(alloc: Global, bytes: &[u8]) -> Result<Block, BlockError>
        ensures ok { IfOk result (λ block. IsBlock bytes.now block) }
        ensures err { IfErr result (λ e. IsBlockError bytes.now e) }
        ensures accepts { (block : Contents) → IsBlock bytes.now block
            → UnlessOutOfMemory BlockError.OutOfMemory result (Ok block) }
        ensures refuses { (place : ℕ) (why : BlockReason) → HasFault bytes.now place why
            → UnlessOutOfMemory BlockError.OutOfMemory result (Err (BlockError.BadBlock place why)) }
    {
        keep(alloc, bytes)
    }

    /// The header.
    pub fn header(&self) -> Header
        ensures { result ≡ self.now.header }
    {
        header_from(&self.bytes)
    }

    /// How many transactions the block has, at least one.
    pub fn count(&self) -> usize
        ensures { result ≡ length self.now.transactions }
    {
        self.places.len()
    }

    /// The bytes of the transaction with the index `i`, counted from 0, without marker, flag and
    /// witness. They lie in memory of this block's allocator, and are fewer than 2^61.
    pub fn stripped(&self, i: usize) -> Result<Vec<u8>, OutOfMemory>
        requires { i < length self.now.transactions }
        ensures form { IfOk result (λ bytes. bytes.items ≡ slice_index_or (stripped_forms self.now) i []) }
        ensures short { IfOk result (λ bytes. length bytes.items < 2 ^ 61) }
    {
        stripped_at(*self.bytes.allocator(), &self.bytes, self.places[i])
    }

    /// The id of the transaction with the index `i`, counted from 0, in the order in which Bitcoin
    /// keeps its bytes. The usual text of an id has the bytes from the last to the first.
    pub fn txid(&self, i: usize) -> Result<[u8; 32], OutOfMemory>
        requires { i < length self.now.transactions }
        ensures { IfOk result (λ id. id ≡ slice_index_or (txids self.now) i []) }
    {
        let stripped = self.stripped(i)?;
        Ok(double_sha256(&stripped))
    }
}

/// The block that these bytes are.
fn keep(alloc: Global, bytes: &[u8]) -> Result<Block, BlockError>
    ensures { UnlessOutOfMemory BlockError.OutOfMemory result (read_block bytes.now) }
{
    let places = read_places(alloc, bytes)?;
    let bytes = Vec::from_slice(alloc, bytes)?;
    Ok(Block { bytes, places })
}

/// The header at the start of the bytes.
fn header_from(bytes: &[u8]) -> Header
    requires { 80 ≤ length bytes.now }
    ensures { result ≡ header_in bytes.now }
{
    let mut header = [0; 80];
    header.copy_from_slice(&bytes[..80]);
    Header::from_bytes(&header)
}

/// The transaction with these places, without marker, flag and witness.
#[tactic(auto, unfolding(crate::specs::Ends::stripped_in))]
fn stripped_at(alloc: Global, bytes: &[u8], places: Places) -> Result<Vec<u8>, OutOfMemory>
    requires { AreWithin (length bytes.now) places }
    ensures { IfOk result (λ stripped. stripped.items ≡ stripped_in bytes.now places) }
{
    let total = bytes.len();
    let start = total - places.start;
    let body = total - places.body;
    let witness = total - places.witness;
    let lock_time = total - places.lock_time;
    let mut stripped = Vec::with_capacity(alloc, 8 + (witness - body))?;
    stripped.extend_from_slice(&bytes[start..start + 4])?;
    stripped.extend_from_slice(&bytes[body..witness])?;
    stripped.extend_from_slice(&bytes[lock_time..lock_time + 4])?;
    Ok(stripped)
}
