//! The reading of a reply sheet.
ghost use Rattle.std.specs.Prelude.{◌≡◌, ◌<◌, ◌^◌, ◌++◌, ◌∷◌, ◌↔◌, [], codes, decimal, length, IfOk, IsErrOf, IsTrue};
ghost use Rattle.hex.specs.Hex.{encode_lower};
ghost use Rattle.ots_base.specs.Cause.{HasCauseWhere};
ghost use Rattle.ots_line_reader.specs.declared.reader.TheConstants.{ROOM};
ghost use Rattle.ots_sheet.specs.Sheet.{AreAnswers};
ghost use Rattle.ots_replies.specs.Replies.{ReadsReplies};
ghost use Rattle.ots_replies.specs.inner.Reading.{EndsInOrder, EndsRight, ReadsAnswers, TakesAnswer};

use crate::error::SheetError;
use crate::replies::Replies;
use crate::shape::shape_of;
use crate::store::Store;
use ots_base::OutOfMemory;
use ots_line_reader::{Found, LineReader};
use ots_outside::Source;
use ots_sheet::{LinesSum, MAX_LINES, MAX_SHEET};
use std::alloc::Global;
use std::cmp::Ordering;

/// How the last line of a sheet begins.
const SUM: &[u8] = b"sum ";

/// The answers before a sheet's last line.
#[derive(Drop)]
struct Answers {
    store: Store,
    /// The SHA-256 of their lines.
    digest: [u8; 32],
    /// How many bytes their lines have.
    size: usize,
}

/// The replies of a reply sheet, which is the source's whole input. It is read in pieces, and no further
/// after the line that is refused.
///
/// `ReadFault` comes only where the source's count of faults rose.
pub fn read_replies<S: Source>(alloc: Global, source: &mut S) -> Result<Replies, SheetError>
    ensures replies { ReadsReplies (S.left source.old) result }
    ensures cause { HasCauseWhere (IsErrOf result SheetError.ReadFault) (S.faults source.old) (S.faults source.new) }
    ensures same { S.same source.old source.new }
{
    let mut lines = LineReader::new();
    let answers = read_answers(alloc, &mut lines, source)?;
    let number = answers.store.len() as u64 + 1;
    if !ends_right(alloc, &answers, lines.line())? {
        return Err(SheetError::BadSheet(number));
    }
    match lines.advance(source)? {
        Found::End => Ok(Replies {
            store: answers.store,
        }),
        _ => Err(SheetError::BadSheet(number + 1)),
    }
}

/// The answers before the first line that begins as the last one of a sheet does. The reader has that
/// line.
fn read_answers<S: Source>(
    alloc: Global,
    lines: &mut LineReader,
    source: &mut S,
) -> Result<Answers, SheetError>
    requires { lines.old.held ≡ [] }
    ensures answers { ReadsAnswers lines.new (S.left source.old) (S.left source.new) result }
    ensures cause { HasCauseWhere (IsErrOf result SheetError.ReadFault) (S.faults source.old) (S.faults source.new) }
    ensures same { S.same source.old source.new }
{
    let mut store = Store::new(alloc);
    let mut sum = LinesSum::new();
    let mut size = 0;
    loop {
        let number = store.len() as u64 + 1;
        if !is_line(lines.advance(source)?) {
            return Err(SheetError::BadSheet(number));
        }
        let line = lines.line();
        if line.starts_with(SUM) {
            let digest = sum.digest();
            return Ok(Answers {
                store,
                digest,
                size,
            });
        }
        size += line.len() + 1;
        if size > MAX_SHEET || !take_answer(&mut store, line)? {
            return Err(SheetError::BadSheet(number));
        }
        sum.add(line);
        sum.add(b"\n");
    }
}

/// Whether a line was found.
fn is_line(found: Found) -> bool
    ensures { IsTrue result ↔ (found ≡ Found.Line) }
{
    matches!(found, Found::Line)
}

/// Keeps the answer that a line is after the others, and tells whether it is one that may follow them.
fn take_answer(store: &mut Store, line: &[u8]) -> Result<bool, OutOfMemory>
    requires short { length line.now < ROOM }
    requires good { AreAnswers store.old }
    ensures { IfOk result (TakesAnswer store.old store.new line.now) }
{
    if store.len() >= MAX_LINES {
        return Ok(false);
    }
    match shape_of(line) {
        Some(shape) => {
            store.push(&shape)?;
            Ok(ends_in_order(store))
        }
        None => Ok(false),
    }
}

/// Whether the last request comes after the one before it.
fn ends_in_order(store: &Store) -> bool
    ensures { IsTrue result ↔ EndsInOrder store.now }
{
    let count = store.len();
    if count < 2 {
        return true;
    }
    let before = store.request(count - 2);
    matches!(before.order(&store.request(count - 1)), Ordering::Less)
}

/// Whether a line is the last one of a sheet of these answers, within the limits.
fn ends_right(alloc: Global, answers: &Answers, line: &[u8]) -> Result<bool, OutOfMemory>
    requires { answers.now.size < 2 ^ 62 }
    ensures { IfOk result (EndsRight answers.now line.now) }
{
    let count = answers.store.len();
    if count >= MAX_LINES || answers.size + line.len() + 1 > MAX_SHEET {
        return Ok(false);
    }
    let sum = sum_line(alloc, count as u64, &answers.digest)?;
    Ok(sum.as_slice() == line)
}

/// The last line of a sheet of so many lines with this sum.
fn sum_line(alloc: Global, count: u64, digest: &[u8; 32]) -> Result<Vec<u8>, OutOfMemory>
    ensures { IfOk result (λ line. line.items ≡ codes "sum " ++ (decimal count ++ 32 ∷ encode_lower digest.now)) }
{
    let mut line = Vec::from_slice(alloc, SUM)?;
    line.extend_from_slice(itoa::Buffer::new().format(count).as_bytes())?;
    line.extend_from_slice(b" ")?;
    let mut digits = [0; 64];
    let _ = hex::encode_to_slice(digest, &mut digits);
    line.extend_from_slice(&digits)?;
    Ok(line)
}
