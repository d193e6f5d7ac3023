//! Where the fields of a transaction end.
ghost use Rattle.ots_block.specs.Reading.{compact_at, marker_at, flag_at};
ghost use Rattle.ots_block.specs.Ends.{run_end, sized_end, many_end, counted_end, input_end, output_end, stack_end};
ghost use Rattle.ots_block.specs.Ends.{witness_end, laid_at};
ghost use Rattle.ots_block.specs.Given.{Gives};

use crate::compact::read_compact;
use crate::fault::BlockReason;
use crate::places::Places;
use crate::stop::Stop;

/// The bytes after the first `count`.
pub(crate) fn skip_run(bytes: &[u8], count: usize) -> Result<&[u8], Stop>
    ensures { Gives (λ x. x.now) result (run_end count bytes.now) }
{
    if bytes.len() < count {
        return Err(Stop::at(bytes, BlockReason::Truncated));
    }
    Ok(&bytes[count..])
}

/// The bytes after a run of bytes and its length.
#[tactic(auto, unfolding(crate::specs::Ends::sized_end))]
fn skip_sized(bytes: &[u8]) -> Result<&[u8], Stop>
    ensures { Gives (λ x. x.now) result (sized_end bytes.now) }
{
    let (count, rest) = read_compact(bytes)?;
    skip_run(rest, count)
}

/// The bytes after an input: which output it spends, its script, and its sequence number.
#[tactic(auto, unfolding(crate::specs::Ends::input_end))]
fn skip_input(bytes: &[u8]) -> Result<&[u8], Stop>
    ensures { Gives (λ x. x.now) result (input_end bytes.now) }
{
    let rest = skip_run(bytes, 36)?;
    let rest = skip_sized(rest)?;
    skip_run(rest, 4)
}

/// The bytes after an output: its value and its script.
#[tactic(auto, unfolding(crate::specs::Ends::output_end))]
fn skip_output(bytes: &[u8]) -> Result<&[u8], Stop>
    ensures { Gives (λ x. x.now) result (output_end bytes.now) }
{
    let rest = skip_run(bytes, 8)?;
    skip_sized(rest)
}

/// The bytes after `count` inputs.
fn skip_inputs(bytes: &[u8], count: usize) -> Result<&[u8], Stop>
    ensures { Gives (λ x. x.now) result (many_end input_end count bytes.now) }
{
    let mut rest = bytes;
    for _ in 0..count {
        rest = skip_input(rest)?;
    }
    Ok(rest)
}

/// The number of inputs, and the bytes after them.
#[tactic(auto, unfolding(crate::specs::Ends::counted_end))]
fn read_inputs(bytes: &[u8]) -> Result<(usize, &[u8]), Stop>
    ensures { Gives (λ x. (x.0, x.1.now)) result (counted_end input_end bytes.now) }
{
    let (count, rest) = read_compact(bytes)?;
    let rest = skip_inputs(rest, count)?;
    Ok((count, rest))
}

/// The bytes after `count` outputs.
fn skip_outputs(bytes: &[u8], count: usize) -> Result<&[u8], Stop>
    ensures { Gives (λ x. x.now) result (many_end output_end count bytes.now) }
{
    let mut rest = bytes;
    for _ in 0..count {
        rest = skip_output(rest)?;
    }
    Ok(rest)
}

/// The number of outputs, and the bytes after them.
#[tactic(auto, unfolding(crate::specs::Ends::counted_end))]
fn read_outputs(bytes: &[u8]) -> Result<(usize, &[u8]), Stop>
    ensures { Gives (λ x. (x.0, x.1.now)) result (counted_end output_end bytes.now) }
{
    let (count, rest) = read_compact(bytes)?;
    let rest = skip_outputs(rest, count)?;
    Ok((count, rest))
}

/// The bytes after `count` items of a witness.
fn skip_items(bytes: &[u8], count: usize) -> Result<&[u8], Stop>
    ensures { Gives (λ x. x.now) result (many_end sized_end count bytes.now) }
{
    let mut rest = bytes;
    for _ in 0..count {
        rest = skip_sized(rest)?;
    }
    Ok(rest)
}

/// The bytes after an input's items of a witness and their number.
#[tactic(auto, unfolding(crate::specs::Ends::stack_end))]
fn skip_stack(bytes: &[u8]) -> Result<&[u8], Stop>
    ensures { Gives (λ x. x.now) result (stack_end bytes.now) }
{
    let (count, rest) = read_compact(bytes)?;
    skip_items(rest, count)
}

/// The bytes after the witness items of `count` inputs.
fn skip_stacks(bytes: &[u8], count: usize) -> Result<&[u8], Stop>
    ensures { Gives (λ x. x.now) result (many_end stack_end count bytes.now) }
{
    let mut rest = bytes;
    for _ in 0..count {
        rest = skip_stack(rest)?;
    }
    Ok(rest)
}

/// The bytes after the witness of these inputs, where there is one.
#[tactic(auto, unfolding(crate::specs::Ends::witness_end))]
fn skip_witness(marked: bool, inputs: usize, bytes: &[u8]) -> Result<&[u8], Stop>
    ensures { Gives (λ x. x.now) result (witness_end marked inputs bytes.now) }
{
    if marked {
        skip_stacks(bytes, inputs)
    } else {
        Ok(bytes)
    }
}

/// Whether the bytes begin with a marker and a flag, and the bytes after them.
#[tactic(auto, unfolding(crate::specs::Reading::marker_at))]
fn read_marker(bytes: &[u8]) -> Result<(bool, &[u8]), Stop>
    ensures { Gives (λ x. (x.0, x.1.now)) result (marker_at bytes.now) }
{
    match bytes {
        [0, after @ ..] => read_flag(after),
        _ => Ok((false, bytes)),
    }
}

/// The flag after a marker, and the bytes after it.
#[tactic(auto, unfolding(crate::specs::Reading::flag_at))]
fn read_flag(bytes: &[u8]) -> Result<(bool, &[u8]), Stop>
    ensures { Gives (λ x. (x.0, x.1.now)) result (flag_at bytes.now) }
{
    match bytes {
        [] => Err(Stop::at(bytes, BlockReason::Truncated)),
        [1, after @ ..] => Ok((true, after)),
        _ => Err(Stop::at(bytes, BlockReason::BadFlag)),
    }
}

/// The places of the transaction at the start of the bytes, and the bytes after it.
#[tactic(auto, unfolding(crate::specs::Ends::laid_at))]
pub(crate) fn read_transaction(bytes: &[u8]) -> Result<(Places, &[u8]), Stop>
    ensures { Gives (λ x. (x.0, x.1.now)) result (laid_at bytes.now) }
{
    let version = skip_run(bytes, 4)?;
    let (marked, body) = read_marker(version)?;
    let (inputs, rest) = read_inputs(body)?;
    let (_, witness) = read_outputs(rest)?;
    let lock_time = skip_witness(marked, inputs, witness)?;
    let after = skip_run(lock_time, 4)?;
    let places = Places {
        start: bytes.len(),
        body: body.len(),
        witness: witness.len(),
        lock_time: lock_time.len(),
    };
    Ok((places, after))
}
