//! Pins: the block hashes that a table is to have at some heights.
ghost use Rattle.std.specs.Prelude.{◌≡◌, ◌≤◌, ◌-◌, ◌^◌, ℕ, List, length, reverse, decimal, IsErrOf, MatchOption};
ghost use Rattle.hex.specs.Hex.{IsBytes, encode_lower};
ghost use Rattle.ots_base.specs.Cause.{HasCauseWhere};
ghost use Rattle.ots_chain.specs.declared.pins.TheConstants.{MAX_LINE, MAX_PINS};
ghost use Rattle.ots_chain.specs.Pins.{IsPin, ReadsPins, first_failing, holds};
ghost use Rattle.ots_chain.specs.PinLines.{as_pins, pin_form};

use memchr::memchr;
use ots_arguments::number;
use ots_headers::{Headers, block_hash};
use ots_inputs::{Line, LinesError, read_lines};
use ots_outside::Source;
use std::alloc::Global;

/// The most pins of a file. The limit is this project's.
pub const MAX_PINS: usize = 1_024;

/// The most bytes of a line: 19 digits of a height, a space, 64 digits of a hash, and the line feed.
const MAX_LINE: usize = 85;

/// The greatest height.
const MAX_HEIGHT: u64 = (1 << 63) - 1;

/// A height, and the block hash that its header is to have.
#[derive(Clone, Copy)]
pub struct Pin {
    /// The height, at most 2^63 - 1.
    pub height: u64,
    /// The hash as Bitcoin keeps it: the usual text has the bytes from the last to the first.
    pub hash: [u8; 32],
}

/// Why no pins were read.
#[derive(Clone, Copy)]
pub enum PinsError {
    /// A read failed, and the source has counted the fault.
    ReadFault,
    /// The number of the first line that is not of its form, counted from 1: 1 where the input is empty, and 1,025
    /// where anything follows 1,024 lines.
    BadPins(u64),
    /// Memory ran out.
    OutOfMemory,
}

impl From<LinesError> for PinsError {
    ghost from_gives = { λ e r. r ≡ as_pins e };

    fn from(error: LinesError) -> Self {
        match error {
            LinesError::ReadFault => PinsError::ReadFault,
            LinesError::BadLine(number) => PinsError::BadPins(number),
            LinesError::OutOfMemory => PinsError::OutOfMemory,
        }
    }
}

/// A file of pins, as lines.
struct Pins;

impl Line for Pins {
    type Item = Pin;

    ghost is_item = { IsPin };

    ghost MAX_LINE = { MAX_LINE };

    ghost MAX_LINES = { MAX_PINS };

    const MAX_LINE: usize = MAX_LINE;

    const MAX_LINES: usize = MAX_PINS;

    fn read(line: &[u8]) -> Option<Pin> {
        let space = memchr(b' ', line)?;
        let height = height_of(&line[..space])?;
        let hash = hash_of(&line[space + 1..])?;
        Some(Pin { height, hash })
    }

    ghost form = { pin_form };
}

/// The pins of a source's whole input: 1 to 1,024 lines, each of a height in decimal digits without a leading zero,
/// at most 2^63 - 1, a space, the block hash in 64 lower-case hexadecimal digits, its last byte first as it is usually
/// shown, and a line feed. It is read in pieces, and no further after the first line that is not of this form.
///
/// `ReadFault` comes only where the source's count of faults rose.
pub fn read_pins<S: Source>(alloc: Global, source: &mut S) -> Result<Vec<Pin>, PinsError>
    ensures pins { ReadsPins (S.left source.old) result }
    ensures cause { HasCauseWhere (IsErrOf result PinsError.ReadFault) (S.faults source.old) (S.faults source.new) }
    ensures same { S.same source.old source.new }
{
    Ok(read_lines::<Pins, S>(alloc, source)?)
}

/// The height of the first pin that the table does not hold: it has no header of that height, or the header there
/// has another block hash. `None` exactly where it holds each pin. It takes no memory.
pub fn failing_pin(headers: &Headers, pins: &[Pin]) -> Option<u64>
    ensures { result ≡ first_failing headers.now pins.now }
{
    for pin in pins {
        if !holds_pin(headers, pin) {
            return Some(pin.height);
        }
    }
    None
}

/// Whether the table has a header of the pin's height with its block hash.
fn holds_pin(headers: &Headers, pin: &Pin) -> bool
    ensures { result ≡ holds headers.now pin.now }
{
    match headers.at(pin.height) {
        Some(header) => block_hash(&header.to_bytes()) == pin.hash,
        None => false,
    }
}

/// The height that these digits are the decimal text of, at most 2^63 - 1.
fn height_of(digits: &[u8]) -> Option<u64>
    ensures { MatchOption result ((height : ℕ) → height ≤ 2 ^ 63 - 1 → digits.now ≡ decimal height → ⊥)
        (λ height. (height ≤ 2 ^ 63 - 1) × (digits.now ≡ decimal height)) }
{
    number(str::from_utf8(digits).ok()?, 0, MAX_HEIGHT)
}

/// The block hash that these digits are the usual text of, its last byte first.
fn hash_of(digits: &[u8]) -> Option<[u8; 32]>
    ensures { MatchOption result
        ((hash : List ℕ) → length hash ≡ 32 → IsBytes hash → digits.now ≡ encode_lower (reverse hash) → ⊥)
        (λ hash. (digits.now ≡ encode_lower (reverse hash)) × (length hash ≡ 32) × IsBytes hash) }
{
    let mut hash = [0; 32];
    let mut text = [0; 64];
    hex::decode_to_slice(digits, &mut hash).ok()?;
    hex::encode_to_slice(hash, &mut text).ok()?;
    if text.as_slice() != digits {
        return None;
    }
    hash.reverse();
    Some(hash)
}
