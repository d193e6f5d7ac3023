//! What one token does to the nodes that are open.
ghost use Rattle.std.specs.Prelude.{◌≡◌, ◌<◌, ◌≤◌, false, length};
ghost use Rattle.ots_ops.specs.OpRef.{op_of};
ghost use Rattle.ots_tree.specs.TokenRef.{token_of};
ghost use Rattle.ots_reader.specs.Turn.{LeadsTo, Moves};

use crate::fault::Reason;
use ots_base::MAX_MESSAGE;
use ots_ops::OpRef;
use ots_tree::{Shape, TokenRef, Walk};

/// Whether a node is open after one more token. Where the token can't stand there, the walk stays as
/// it is. It takes no memory.
#[inline(always)]
pub(crate) fn take_turn(walk: &mut Walk<Shape>, token: TokenRef<'_>) -> Result<bool, Reason>
    requires least { 1 ≤ walk.old.last.length }
    requires greatest { walk.old.last.length ≤ MAX_MESSAGE }
    requires room { walk.old.forked ≡ false → length walk.old.others < walk.old.room }
    ensures moves { Moves walk.old walk.new (token_of token.entry) result }
    ensures room { walk.new.room ≡ walk.old.room }
{
    match token {
        TokenRef::Attestation(_) => Ok(walk.close()),
        TokenRef::Op(op) => {
            let to = node_after(walk.last(), op)?;
            walk.lead(to);
            Ok(true)
        }
        TokenRef::Fork => {
            if walk.is_forked() {
                return Err(Reason::ForkFork);
            }
            walk.fork().unwrap();
            Ok(true)
        }
    }
}

/// The node of the operation's result.
#[inline(always)]
fn node_after(at: Shape, op: OpRef<'_>) -> Result<Shape, Reason>
    requires least { 1 ≤ at.length }
    requires greatest { at.length ≤ MAX_MESSAGE }
    ensures { LeadsTo at (op_of op.entry) result }
{
    if !at.has_room() {
        return Err(Reason::TooDeep);
    }
    match at.after(op) {
        Some(to) => Ok(to),
        None => Err(Reason::ResultTooLong),
    }
}
