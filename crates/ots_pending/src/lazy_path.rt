//! The messages on the path of a walk, of which those are made that are asked for.
ghost use Rattle.std.specs.Prelude.{◌≡◌, ◌+◌, ◌^◌, ◌<◌, ◌≤◌, ◌∷◌, ◌++◌, [], take, length, option_to_list, IfOk, OnOk};
ghost use Rattle.std.specs.Prelude.{vec_len, vec_capacity};
ghost use Rattle.std.specs.List.{slice_get};
ghost use Rattle.ots_tree.specs.PendingWalk.{result_at};
ghost use Rattle.ots_pending.specs.Distinct.{AreDistinct};
ghost use Rattle.ots_pending.specs.Grown.{IsKnownAt};
ghost use Rattle.ots_pending.specs.LazyPath.{all_made, next_made, ops_of, with_op, IsMade};
ghost use Rattle.ots_pending.specs.OnPath.{FindsNumber};

use crate::distinct::Distinct;
use ots_base::OutOfMemory;
use ots_ops::{Message, Op};
use ots_tree::result_of;
use std::alloc::Global;
use std::marker::Model;

/// The messages of the nodes on the path to where a walk over a tree is, by their depths: that of the
/// root at depth 0, and after each operation that of its result. An operation is applied once a message
/// below it is asked for, and then no second time.
///
/// Contracts see the list of all these messages.
#[derive(Drop)]
pub(crate) struct LazyPath<'a> {
    /// Those that were made: the first ones.
    made: Vec<Message>,
    /// The operations on the path, from the root on.
    ops: Vec<&'a Op>,
}

impl<'a> Model for LazyPath<'a> {
    ghost use Rattle.std.specs.Prelude.{ℕ, List};
    ghost use Rattle.ots_pending.specs.LazyPath.{all_made, IsMade};

    ghost Value = { List (List ℕ) };

    ghost view = { λ p. all_made p.made.items p.ops.items };

    ghost invariant = { λ p. IsMade p.made.items p.ops.items };
}

impl<'a> LazyPath<'a> {
    /// The root's message alone. All memory is the allocator's.
    pub(crate) fn begin(alloc: Global, root: Message) -> Result<LazyPath<'a>, OutOfMemory>
        ensures { IfOk result (λ path. path ≡ root ∷ []) }
    {
        let mut made = Vec::new(alloc);
        made.push(root)?;
        Ok(LazyPath {
            made,
            ops: Vec::new(alloc),
        })
    }

    /// Goes on after an operation at a depth: its result stands after the messages up to this depth. It is not
    /// applied yet.
    pub(crate) fn follow(&mut self, op: &'a Op, depth: usize) -> Result<(), OutOfMemory>
        requires { depth < 2 ^ 32 }
        ensures { OnOk result (self.new ≡ take (depth + 1) self.old
            ++ option_to_list (result_at op.now depth self.old)) }
    {
        self.ops.reserve(1)?;
        self.made.truncate(depth + 1);
        put_op(&mut self.ops, op, depth);
        Ok(())
    }

    /// The number of the message at a depth among these, where there is one. It is added where it is new.
    pub(crate) fn number(
        &mut self,
        alloc: Global,
        depth: usize,
        messages: &mut Distinct,
    ) -> Result<Option<usize>, OutOfMemory>
        requires { AreDistinct messages.old }
        ensures same { self.new ≡ self.old }
        ensures number { IfOk result (FindsNumber messages.old messages.new self.old depth) }
    {
        make(&mut self.made, &self.ops, depth)?;
        let Some(message) = self.made.get(depth) else {
            return Ok(None);
        };
        let number = messages.number(alloc, message.bytes())?;
        Ok(Some(number))
    }

    /// The number of the message at a depth among these, where it has one.
    pub(crate) fn place(
        &mut self,
        depth: usize,
        messages: &Distinct,
    ) -> Result<Option<usize>, OutOfMemory>
        ensures same { self.new ≡ self.old }
        ensures number { IfOk result (IsKnownAt messages.now self.old depth) }
    {
        make(&mut self.made, &self.ops, depth)?;
        let Some(message) = self.made.get(depth) else {
            return Ok(None);
        };
        Ok(messages.place(message.bytes()))
    }
}

/// Puts an operation after those up to a depth, where there are so many. There is room for it.
fn put_op<'a>(ops: &mut Vec<&'a Op>, op: &'a Op, depth: usize)
    requires { vec_len ops.old < vec_capacity ops.old }
    ensures { ops_of ops.new.items ≡ with_op op.now depth (ops_of ops.old.items) }
{
    ops.truncate(depth);
    if ops.len() == depth {
        ops.push_reserved(op);
    }
}

/// Makes the messages up to a depth that are not made yet.
fn make(made: &mut Vec<Message>, ops: &[&Op], depth: usize) -> Result<(), OutOfMemory>
    requires { IsMade made.old.items ops.now }
    ensures made { IsMade made.new.items ops.now }
    ensures same { all_made made.new.items ops.now ≡ all_made made.old.items ops.now }
    ensures there { OnOk result (slice_get (all_made made.new.items ops.now) depth ≡ slice_get made.new.items depth) }
{
    let alloc = *made.allocator();
    while made.len() <= depth {
        let Some(message) = next(alloc, made, ops)? else {
            return Ok(());
        };
        made.push(message)?;
    }
    Ok(())
}

/// The result of the first operation that was not applied, where there is one and it has one.
fn next(alloc: Global, made: &[Message], ops: &[&Op]) -> Result<Option<Message>, OutOfMemory>
    requires { 1 ≤ length made.now }
    ensures { IfOk result (λ next. next ≡ next_made made.now (ops_of ops.now)) }
{
    let Some(op) = ops.get(made.len() - 1) else {
        return Ok(None);
    };
    result_of(alloc, op, made.last())
}
