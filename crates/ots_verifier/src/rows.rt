//! Rows of bytes, at the start of which messages lie.
ghost use Rattle.std.specs.Prelude.{◌≡◌, ◌<◌, ◌≤◌, true, [], Some, length, take, slice_index_or, vec_capacity};
ghost use Rattle.std.specs.Prelude.{IsSome};
ghost use Rattle.ots_ops.specs.Apply.{apply};
ghost use Rattle.ots_ops.specs.OpRef.{op_of};
ghost use Rattle.ots_verifier.specs.Rows.{IsPut, row_of};

use ots_base::MAX_MESSAGE;
use ots_ops::OpRef;

/// One row.
pub(crate) type Row = [u8; MAX_MESSAGE];

/// Copies the row before this one into it, where `shared` says that the message lies in both of them.
pub(crate) fn part(rows: &mut Vec<Row>, row: usize, shared: bool)
    requires within { row < length rows.old.items }
    requires before { shared ≡ true → 1 ≤ row }
    ensures put { IsPut rows.old.items rows.new.items row (slice_index_or rows.old.items (row_of shared row) []) }
    ensures room { vec_capacity rows.new ≡ vec_capacity rows.old }
{
    if shared {
        rows[row] = rows[row - 1];
    }
}

/// Puts the result of an operation in the place of the message of `count` bytes at the start of a row,
/// and answers how long it is.
pub(crate) fn put_result(rows: &mut Vec<Row>, row: usize, count: usize, op: OpRef<'_>) -> usize
    requires within { row < length rows.old.items }
    requires fits { count ≤ MAX_MESSAGE }
    requires has_result { IsSome (apply (op_of op) (take count (slice_index_or rows.old.items row []))) }
    ensures put { IsPut rows.old.items rows.new.items row (slice_index_or rows.new.items row []) }
    ensures fits { result ≤ MAX_MESSAGE }
    ensures value { apply (op_of op.entry) (take count (slice_index_or rows.old.items row []))
        ≡ Some (take result (slice_index_or rows.new.items row [])) }
    ensures room { vec_capacity rows.new ≡ vec_capacity rows.old }
{
    put_applied(&mut rows[row], count, op)
}

/// Puts the result of an operation in the place of the message of `count` bytes at the start of the row.
fn put_applied(row: &mut Row, count: usize, op: OpRef<'_>) -> usize
    requires fits { count ≤ MAX_MESSAGE }
    requires has_result { IsSome (apply (op_of op) (take count row.old)) }
    ensures fits { result ≤ MAX_MESSAGE }
    ensures value { apply (op_of op.entry) (take count row.old) ≡ Some (take result row.new) }
{
    match op.apply_in_place(row, count) {
        Ok(answered) => answered,
        Err(_) => unreachable!(),
    }
}

/// Puts a message at the start of one of the rows.
pub(crate) fn put_message(rows: &mut Vec<Row>, row: usize, message: &[u8])
    requires within { row < length rows.old.items }
    requires fits { length message.now ≤ MAX_MESSAGE }
    ensures put { IsPut rows.old.items rows.new.items row (slice_index_or rows.new.items row []) }
    ensures message { take (length message.now) (slice_index_or rows.new.items row []) ≡ message.now }
    ensures room { vec_capacity rows.new ≡ vec_capacity rows.old }
{
    put_prefix(&mut rows[row], message);
}

/// Puts a message at the start of a row.
fn put_prefix(row: &mut Row, message: &[u8])
    requires { length message.now ≤ MAX_MESSAGE }
    ensures { take (length message.now) row.new ≡ message.now }
{
    row[..message.len()].copy_from_slice(message);
}
