//! The number before a list or a run of bytes.
ghost use Rattle.std.specs.Prelude.{◌^◌};
ghost use Rattle.std.specs.Int.{w16, w32, w64};
ghost use Rattle.ots_block.specs.Reading.{compact_at, wide_at, in_range};
ghost use Rattle.ots_block.specs.Given.{Gives};

use crate::fault::BlockReason;
use crate::limits::MAX_COMPACT;
use crate::stop::Stop;

/// The number at the start of the bytes, and those after it.
#[tactic(auto, unfolding(crate::specs::Reading::compact_at))]
pub(crate) fn read_compact(bytes: &[u8]) -> Result<(usize, &[u8]), Stop>
    ensures { Gives (λ x. (x.0, x.1.now)) result (compact_at bytes.now) }
{
    match bytes {
        [] => Err(Stop::at(bytes, BlockReason::Truncated)),
        [0xfd, after @ ..] => read_wide_2(bytes, after),
        [0xfe, after @ ..] => read_wide_4(bytes, after),
        [0xff, after @ ..] => read_wide_8(bytes, after),
        [first, after @ ..] => Ok((usize::from(*first), after)),
    }
}

/// The number of 2 bytes after the first byte of its form.
fn read_wide_2<'a>(bytes: &'a [u8], after: &'a [u8]) -> Result<(usize, &'a [u8]), Stop>
    ensures { Gives (λ x. (x.0, x.1.now)) result (wide_at w16 0xfd bytes.now after.now) }
{
    if after.len() < 2 {
        return Err(Stop::at(bytes, BlockReason::Truncated));
    }
    let (number, rest) = after.split_at(2);
    let number = u16::from_le_bytes([number[0], number[1]]);
    check_range(0xfd, bytes, u64::from(number), rest)
}

/// The number of 4 bytes after the first byte of its form.
fn read_wide_4<'a>(bytes: &'a [u8], after: &'a [u8]) -> Result<(usize, &'a [u8]), Stop>
    ensures { Gives (λ x. (x.0, x.1.now)) result (wide_at w32 (2 ^ 16) bytes.now after.now) }
{
    if after.len() < 4 {
        return Err(Stop::at(bytes, BlockReason::Truncated));
    }
    let (number, rest) = after.split_at(4);
    let number = u32::from_le_bytes([number[0], number[1], number[2], number[3]]);
    check_range(1 << 16, bytes, u64::from(number), rest)
}

/// The number of 8 bytes after the first byte of its form.
fn read_wide_8<'a>(bytes: &'a [u8], after: &'a [u8]) -> Result<(usize, &'a [u8]), Stop>
    ensures { Gives (λ x. (x.0, x.1.now)) result (wide_at w64 (2 ^ 32) bytes.now after.now) }
{
    if after.len() < 8 {
        return Err(Stop::at(bytes, BlockReason::Truncated));
    }
    let (number, rest) = after.split_at(8);
    let number = u64::from_le_bytes([
        number[0], number[1], number[2], number[3], number[4], number[5], number[6], number[7],
    ]);
    check_range(1 << 32, bytes, number, rest)
}

/// The number, and the bytes after it, where no shorter form has it and it is within the limit.
/// The bytes are those from its first byte on.
fn check_range<'a>(
    least: u64,
    bytes: &'a [u8],
    number: u64,
    rest: &'a [u8],
) -> Result<(usize, &'a [u8]), Stop>
    ensures { Gives (λ x. (x.0, x.1.now)) result (in_range least bytes.now number rest.now) }
{
    if number < least {
        return Err(Stop::at(bytes, BlockReason::NonMinimal));
    }
    if number > MAX_COMPACT {
        return Err(Stop::at(bytes, BlockReason::TooLarge));
    }
    Ok((number as usize, rest))
}
