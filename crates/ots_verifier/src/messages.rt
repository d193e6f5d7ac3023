//! The messages of the open nodes of a tree.
ghost use Rattle.std.specs.Prelude.{◌≡◌, ◌<◌, ◌≤◌, true, false, [], Some, IfOk, IsSome, length, vec_capacity};
ghost use Rattle.std.specs.Prelude.{if◌then◌else◌};
ghost use Rattle.ots_ops.specs.Apply.{apply};
ghost use Rattle.ots_ops.specs.OpRef.{op_of};
ghost use Rattle.ots_attest.specs.declared.attestation.Attestation.{Attestation};
ghost use Rattle.ots_tree.specs.declared.token.Token.TheVariants as token;
ghost use Rattle.ots_tree.specs.TokenRef.{token_of};
ghost use Rattle.ots_tree.specs.Walk.{next, begun, open_at, none_open, IsStep};
ghost use Rattle.ots_verifier.specs.Following.{MayCome};
ghost use Rattle.ots_verifier.specs.Rows.{row_of};

use crate::rows::{Row, part, put_message, put_result};
use ots_base::{MAX_MESSAGE, OutOfMemory};
use ots_ops::OpRef;
use ots_tree::{TokenRef, Walk};
use std::alloc::Global;
use std::marker::Model;

/// How many rows there are: an open node has at most 255 operations before it, and no other has as
/// many, but that one which a fork has just kept open stands twice and shares its row.
pub(crate) const ROWS: usize = 256;

/// How many bytes of memory the messages take, all of it when they begin: 256 rows of 4096 bytes, with two
/// bytes for the length of each message.
pub(crate) const MESSAGES_BYTES: usize = ROWS * (MAX_MESSAGE + 2);

/// The message of each open node of a tree, in memory that is taken when it begins.
///
/// Contracts see what a walk over the tokens of the tree carries: `last`, at which the next token
/// stands, and `others`, the last one first. They see how many bytes of memory are taken, too.
#[derive(Drop)]
pub(crate) struct Messages {
    /// At the start of the rows the messages of the other nodes lie, the first node's in the first row,
    /// and after them that of the last node. Directly after a fork it shares the row of the node that
    /// was kept open.
    rows: Vec<Row>,
    /// How long the message of each open node is.
    lengths: Walk<u16>,
}

impl Model for Messages {
    ghost use Rattle.std.specs.Prelude.{◌≡◌, vec_capacity};
    ghost use Rattle.ots_verifier.specs.Messages.{kept_in, AreHeld, Kept};
    ghost use Rattle.ots_verifier.specs.declared.messages.TheConstants.{ROWS};

    ghost Value = { Kept };

    ghost view = { λ m. kept_in (vec_capacity m.rows) m.rows.items m.lengths };

    ghost invariant = { λ m. AreHeld m.rows.items m.lengths × (vec_capacity m.rows ≡ ROWS) };
}

impl Messages {
    /// The rows, with no byte at the root.
    pub fn begin(alloc: Global) -> Result<Messages, OutOfMemory>
        ensures begun { IfOk result (λ messages. open_at messages.position ≡ begun []) }
        ensures reserved { IfOk result (λ messages. messages.reserved ≡ MESSAGES_BYTES) }
    {
        Ok(Messages {
            rows: empty_rows(alloc)?,
            lengths: Walk::begin_with_room(alloc, 0, ROWS)?,
        })
    }

    /// Begins anew, with the message of the root. It takes no memory.
    pub fn start(&mut self, message: &[u8])
        requires { length message.now ≤ MAX_MESSAGE }
        ensures begun { open_at self.new.position ≡ begun message.now }
        ensures reserved { self.new.reserved ≡ self.old.reserved }
    {
        put_message(&mut self.rows, 0, message);
        self.lengths.restart(message.len() as u16);
    }

    /// The message of the node at which the next token stands.
    pub fn last(&self) -> &[u8]
        ensures { result.now ≡ self.now.position.last }
    {
        let row = last_row(self.lengths.others(), self.lengths.is_forked());
        &self.rows[row][..self.lengths.last() as usize]
    }

    /// One more token. Whether a node is open after it. It takes no memory.
    pub fn follow(&mut self, token: TokenRef<'_>) -> bool
        requires { MayCome (token_of token) self.old.position }
        ensures step { IsStep apply (token_of token.entry) self.old.position self.new.position result }
        ensures reserved { self.new.reserved ≡ self.old.reserved }
    {
        match token {
            TokenRef::Fork => self.fork(),
            TokenRef::Op(op) => self.lead(op),
            TokenRef::Attestation(_) => return self.close(),
        }
        true
    }

    /// A fork, which keeps the last node open for another item.
    fn fork(&mut self)
        requires free { self.old.position.forked ≡ false }
        requires room { length self.old.position.others < ROWS }
        ensures forks { next apply token.Fork (open_at self.old.position) ≡ Some (open_at self.new.position) }
        ensures reserved { self.new.reserved ≡ self.old.reserved }
    {
        self.lengths.fork().unwrap();
    }

    /// An operation, which has a result there, and leads to the node of it.
    #[tactic(auto, using(crate::proofs::InRows::rows_of_others))]
    fn lead(&mut self, op: OpRef<'_>)
        requires room { length self.old.position.others < ROWS }
        requires has_result { IsSome (apply (op_of op) self.old.position.last) }
        ensures leads { next apply (token.Op (op_of op.entry)) (open_at self.old.position)
            ≡ Some (open_at self.new.position) }
        ensures reserved { self.new.reserved ≡ self.old.reserved }
    {
        let row = self.lengths.others();
        part(&mut self.rows, row, self.lengths.is_forked());
        let length = put_result(&mut self.rows, row, self.lengths.last() as usize, op);
        self.lengths.lead(length as u16);
    }

    /// An attestation, which closes the last node. Whether another node is open.
    fn close(&mut self) -> bool
        ensures closes { (a : Attestation) → next apply (token.Attestation a) (open_at self.old.position)
            ≡ Some (if result then open_at self.new.position else none_open) }
        ensures reserved { self.new.reserved ≡ self.old.reserved }
    {
        self.lengths.close()
    }

    /// How many bytes of memory they have taken: `MESSAGES_BYTES`, from `begin` on.
    pub fn reserved(&self) -> usize
        ensures is { result ≡ self.now.reserved }
        ensures always { result ≡ MESSAGES_BYTES }
    {
        MAX_MESSAGE * self.rows.capacity() + 2 * self.lengths.room()
    }
}

/// Rows of zeros.
fn empty_rows(alloc: Global) -> Result<Vec<Row>, OutOfMemory>
    ensures count { IfOk result (λ rows. length rows.items ≡ ROWS) }
    ensures room { IfOk result (λ rows. vec_capacity rows ≡ ROWS) }
{
    let mut rows = Vec::with_capacity(alloc, ROWS)?;
    for _ in 0..ROWS {
        rows.push_reserved([0; MAX_MESSAGE]);
    }
    Ok(rows)
}

/// The row of the last node's message, by the number of the others.
fn last_row(others: usize, forked: bool) -> usize
    requires { forked ≡ true → 1 ≤ others }
    ensures { result ≡ row_of forked others }
{
    if forked { others - 1 } else { others }
}
