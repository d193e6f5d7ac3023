//! The messages of the nodes on the path of a walk.
ghost use Rattle.std.specs.Prelude.{◌≡◌, ◌^◌, ◌<◌, ◌∷◌, [], None, Some, IfOk, OnOk, MatchOption, length};
ghost use Rattle.std.specs.List.{slice_get};
ghost use Rattle.std.specs.Option.{option_and_then, option_copied};
ghost use Rattle.ots_ops.specs.Apply.{apply};
ghost use Rattle.ots_tree.specs.PendingWalk.{followed, result_at};

use crate::token::Token;
use ots_base::OutOfMemory;
use ots_ops::{Message, Op, OpError, apply};
use std::alloc::Global;
use std::marker::Model;

/// The messages of the nodes on the path to where a walk over a tree is, by their depths: that of the
/// root at depth 0, and after each operation that of its result. Each operation is applied once.
///
/// Contracts see the list of the messages.
#[derive(Drop)]
pub struct PathMessages {
    messages: Vec<Message>,
}

impl Model for PathMessages {
    ghost use Rattle.std.specs.Prelude.{ℕ, List};

    ghost Value = { List (List ℕ) };

    ghost view = { λ p. p.messages.items };

    ghost invariant = { λ _. Unit {0} };
}

impl PathMessages {
    /// The root's message alone. All memory is the allocator's.
    pub fn begin(alloc: Global, root: Message) -> Result<PathMessages, OutOfMemory>
        ensures { IfOk result (λ path. path ≡ root ∷ []) }
    {
        let mut messages = Vec::new(alloc);
        messages.push(root)?;
        Ok(PathMessages { messages })
    }

    /// How many messages there are.
    pub fn len(&self) -> usize
        ensures { result ≡ length self.now }
    {
        self.messages.len()
    }

    /// The message at a depth, where one is.
    pub fn at(&self, depth: usize) -> Option<&Message>
        ensures { MatchOption result (slice_get self.now depth ≡ None)
            (λ message. slice_get self.now depth ≡ Some message.now) }
    {
        self.messages.get(depth)
    }

    /// Goes on after a token at a depth: puts the result of an operation after the messages up to this
    /// depth, and of any other token nothing.
    pub fn follow(&mut self, token: &Token, depth: usize) -> Result<(), OutOfMemory>
        requires { depth < 2 ^ 32 }
        ensures { OnOk result (self.new ≡ followed token.now depth self.old) }
    {
        let Token::Op(op) = token else {
            return Ok(());
        };
        let alloc = *self.messages.allocator();
        let result = result_at(alloc, op, depth, self.messages.as_slice())?;
        self.messages.truncate(depth + 1);
        if let Some(message) = result {
            self.messages.push(message)?;
        }
        Ok(())
    }
}

/// The result of an operation on the message at a depth, where both are.
fn result_at(
    alloc: Global,
    op: &Op,
    depth: usize,
    messages: &[Message],
) -> Result<Option<Message>, OutOfMemory>
    ensures { IfOk result (λ next. next ≡ result_at op.now depth messages.now) }
{
    result_of(alloc, op, messages.get(depth))
}

/// The result of an operation on a message, in memory of `alloc`: none where there is no message, or
/// the operation has no result on it.
pub fn result_of(
    alloc: Global,
    op: &Op,
    message: Option<&Message>,
) -> Result<Option<Message>, OutOfMemory>
    ensures { IfOk result (λ next. next ≡ option_and_then (apply op.now) (option_copied message.entry)) }
{
    let Some(message) = message else {
        return Ok(None);
    };
    match apply(alloc, op, message.bytes()) {
        Ok(next) => Ok(Some(next)),
        Err(OpError::OutOfMemory) => Err(OutOfMemory),
        Err(_) => Ok(None),
    }
}
