//! A file of lines, each of which stands for an item of one form.
ghost use Rattle.std.specs.Prelude.{◌≡◌, ◌≤◌, ◌<◌, ◌+◌, ◌-◌, ℕ, List, length, take, drop, IfOk, IfErr, IsErrOf};
ghost use Rattle.std.specs.Prelude.{MatchOption};
ghost use Rattle.ots_base.specs.Cause.{HasCause, HasCauseWhere};
ghost use Rattle.ots_outside.specs.Streams.{Reads};
ghost use Rattle.ots_inputs.specs.Input.{ReadsInput};
ghost use Rattle.ots_inputs.specs.Lines.{IsBadLine, IsForm, IsLinesOf, ReadsLines, bad_line};
ghost use Rattle.ots_inputs.specs.LinesRead.{EndsLines, StopsLines, TakesLine, TakesLines};
ghost use Rattle.ots_inputs.specs.declared.lines.LinesError.TheVariants.{OutOfMemory, ReadFault};

use crate::error::InputError;
use memchr::memchr;
use ots_outside::{Failed, Shelf, SlotSource, Source};
use std::alloc::{AllocFailed, Global};

/// How many bytes are held at once. No line is longer.
pub const ROOM: usize = 65_536;

/// A form of lines: what a line stands for, and how many lines of how many bytes a file has at most.
pub trait Line {
    /// What a line stands for.
    type Item: Drop;

    /// Holds of the bytes of a line, without its line feed, and of what they stand for.
    ghost is_item: { List ℕ → Self.Item → Type 0 };

    /// [`Line::MAX_LINE`], as clauses name it.
    ghost MAX_LINE: { ℕ };

    /// [`Line::MAX_LINES`], as clauses name it.
    ghost MAX_LINES: { ℕ };

    /// The most bytes of a line, with its line feed.
    const MAX_LINE: usize;

    /// The most lines of a file.
    const MAX_LINES: usize;

    /// What the bytes of a line stand for, without its line feed: `None` exactly where they stand for nothing. They are
    /// fewer than [`Line::MAX_LINE`].
    fn read(line: &[u8]) -> Option<Self::Item>
        requires { length line.now < MAX_LINE }
        ensures { MatchOption result ((item : Self.Item) → is_item line.now item → ⊥) (is_item line.now) };

    /// Lines are told apart by their line feeds, and fit.
    ghost form: { IsForm is_item MAX_LINE MAX_LINES };
}

/// Why lines were not read.
#[derive(Clone, Copy)]
pub enum LinesError {
    /// A read failed, and the source has counted the fault.
    ReadFault,
    /// The number of the first line that is not of its form, counted from 1.
    BadLine(u64),
    /// Memory ran out.
    OutOfMemory,
}

impl From<Failed> for LinesError {
    ghost from_gives = { λ _ e. e ≡ ReadFault };

    fn from(_: Failed) -> Self {
        LinesError::ReadFault
    }
}

impl<T: Drop> From<AllocFailed<T>> for LinesError {
    ghost from_gives = { λ _ e. e ≡ OutOfMemory };

    fn from(_: AllocFailed<T>) -> Self {
        LinesError::OutOfMemory
    }
}

impl From<LinesError> for InputError<u64> {
    ghost from_gives = { λ e r. r ≡ bad_line e };

    fn from(error: LinesError) -> Self {
        match error {
            LinesError::ReadFault => InputError::ReadFault,
            LinesError::BadLine(number) => InputError::Refused(number),
            LinesError::OutOfMemory => InputError::OutOfMemory,
        }
    }
}

/// What stands at the start of bytes.
enum Start<T> {
    /// A line with this item, and its length with its line feed.
    Whole(T, usize),
    /// No line, whatever follows.
    Bad,
    /// Too little to say.
    Open,
}

/// The items of the lines that a file is, which has one line or more. All that the shelf tells of names and slots
/// stays. The first line that is not of its form is refused by its number, counted from 1.
pub fn read_file_lines<L: Line, S: Shelf>(
    alloc: Global,
    name: &str,
    shelf: &mut S,
) -> Result<Vec<L::Item>, InputError<u64>>
    ensures { ReadsInput (IsLinesOf L.is_item L.MAX_LINES) (IsBadLine L.is_item L.MAX_LINES) name.now
        (S.told shelf.old) (S.told shelf.new) (S.faults shelf.old) (S.faults shelf.new) result }
{
    let slot = shelf.open(name)?;
    let read = read_lines::<L, _>(alloc, &mut SlotSource::new(shelf, slot));
    shelf.close(slot);
    Ok(read?)
}

/// The items of the lines that a source's whole input is, which has one line or more. It reads in pieces, and no
/// further piece after the first line that is not of its form. That line is refused by its number, counted from
/// 1: by 1 where the input is empty, by one more than the lines where bytes without a line feed follow them, and
/// by one more than [`Line::MAX_LINES`] where anything follows so many lines.
pub fn read_lines<L: Line, S: Source>(
    alloc: Global,
    source: &mut S,
) -> Result<Vec<L::Item>, LinesError>
    ensures lines { ReadsLines L.is_item L.MAX_LINES (S.left source.old) result }
    ensures cause { HasCauseWhere (IsErrOf result LinesError.ReadFault) (S.faults source.old) (S.faults source.new) }
    ensures same { S.same source.old source.new }
{
    let mut items = Vec::new(alloc);
    let mut room = [0; ROOM];
    let mut held = 0;
    loop {
        let count = read_after(source, &mut room, held)?;
        if count == 0 {
            return all_lines::<L>(items, held);
        }
        let end = held + count;
        let used = take_lines::<L>(&mut items, &room[..end])?;
        keep_rest(&mut room, used, end);
        held = end - used;
    }
}

/// Reads a piece into the bytes after the first `held`, and answers how many came.
fn read_after<S: Source>(source: &mut S, room: &mut [u8], held: usize) -> Result<usize, Failed>
    requires { held < length room.old }
    ensures length { length room.new ≡ length room.old }
    ensures bound { IfOk result (λ count. held + count ≤ length room.new) }
    ensures prefix { take held room.new ≡ take held room.old }
    ensures bytes { Reads (S.left source.old) (S.left source.new) result (drop held room.new) }
    ensures cause { HasCause (S.faults source.old) (S.faults source.new) result }
    ensures same { S.same source.old source.new }
{
    source.read(&mut room[held..])
}

/// Puts what stands from `used` up to `end` at the start.
fn keep_rest(room: &mut [u8], used: usize, end: usize)
    requires order { used ≤ end }
    requires within { end ≤ length room.old }
    ensures length { length room.new ≡ length room.old }
    ensures kept { take (end - used) room.new ≡ drop used (take end room.old) }
{
    room.copy_within(used..end, 0);
}

/// The items of an input that is at its end, where so many bytes are left after their lines.
fn all_lines<L: Line>(items: Vec<L::Item>, left: usize) -> Result<Vec<L::Item>, LinesError>
    requires { length items.items ≤ L.MAX_LINES }
    ensures { EndsLines items.items left result }
{
    if left != 0 || items.is_empty() {
        return Err(LinesError::BadLine(items.len() as u64 + 1));
    }
    Ok(items)
}

/// Takes the items of all whole lines, and answers how many bytes those have. What is left is the start of a line,
/// without its line feed. The first line that is not of its form is refused by its number, counted from 1.
fn take_lines<L: Line>(items: &mut Vec<L::Item>, bytes: &[u8]) -> Result<usize, LinesError>
    requires { length items.old.items ≤ L.MAX_LINES }
    ensures ok { IfOk result (TakesLines L.is_item L.MAX_LINE L.MAX_LINES bytes.now items.old.items items.new.items) }
    ensures err { IfErr result (StopsLines L.is_item L.MAX_LINES bytes.now items.old.items) }
{
    let mut used = 0;
    while used < bytes.len() {
        let number = items.len() as u64 + 1;
        if items.len() == L::MAX_LINES {
            return Err(LinesError::BadLine(number));
        }
        match first_line::<L>(&bytes[used..]) {
            Start::Whole(item, size) => {
                items.push(item)?;
                used += size;
            }
            Start::Bad => return Err(LinesError::BadLine(number)),
            Start::Open => return Ok(used),
        }
    }
    Ok(used)
}

/// The line at the start.
fn first_line<L: Line>(bytes: &[u8]) -> Start<L::Item>
    ensures { TakesLine L.is_item L.MAX_LINE bytes.now result }
{
    match memchr(b'\n', bytes) {
        Some(end) if end < L::MAX_LINE => match L::read(&bytes[..end]) {
            Some(item) => Start::Whole(item, end + 1),
            None => Start::Bad,
        },
        None if bytes.len() < L::MAX_LINE => Start::Open,
        _ => Start::Bad,
    }
}
