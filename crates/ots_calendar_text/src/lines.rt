//! The lines of the commands.
ghost use Rattle.std.specs.Prelude.{◌≡◌, ◌≤◌, length, take};
ghost use Rattle.hex.specs.Hex.{encode_lower};
ghost use Rattle.ots_printer.specs.Printing.{Puts};
ghost use Rattle.ots_calendar_text.specs.Lines.{anchor_line, anchored_line, commit_line, listening_line, migrated_line};
ghost use Rattle.ots_calendar_text.specs.Lines.{served_line, tip_line, tree_line};
ghost use Rattle.ots_tree.specs.Wire.{spell, spelled};

use ots_attest::{MAX_SPELLED_ATTESTATION, spell_attestation};
use ots_ops::{MAX_SPELLED_OP, spell_op};
use ots_outside::Sink;
use ots_printer::Printer;
use ots_tree::{Token, Tree};

/// Puts the line of a commitment, by its index among the commitments.
pub fn put_commit<K: Sink>(index: u64, commitment: &[u8], out: &mut Printer<'_, K>)
    ensures { Puts K.taken K.faults K.same (commit_line index commitment.now) out.old out.new }
{
    out.word("commit ");
    out.number(index);
    out.word(" ");
    out.hex(commitment);
    out.word("\n");
}

/// Puts the line of a tip.
pub fn put_tip<K: Sink>(first: u64, count: u64, root: &[u8], out: &mut Printer<'_, K>)
    ensures { Puts K.taken K.faults K.same (tip_line first count root.now) out.old out.new }
{
    out.word("tip ");
    out.number(first);
    out.word(" ");
    out.number(count);
    out.word(" ");
    out.hex(root);
    out.word("\n");
}

/// Puts the line of an anchor.
pub fn put_anchor<K: Sink>(
    first: u64,
    count: u64,
    height: u64,
    root: &[u8],
    out: &mut Printer<'_, K>,
)
    ensures { Puts K.taken K.faults K.same (anchor_line first count height root.now) out.old out.new }
{
    out.word("anchor ");
    out.number(first);
    out.word(" ");
    out.number(count);
    out.word(" ");
    out.number(height);
    out.word(" ");
    out.hex(root);
    out.word("\n");
}

/// Puts the line of an anchor that was just stored.
pub fn put_anchored<K: Sink>(first: u64, count: u64, height: u64, out: &mut Printer<'_, K>)
    ensures { Puts K.taken K.faults K.same (anchored_line first count height) out.old out.new }
{
    out.word("anchored ");
    out.number(first);
    out.word(" ");
    out.number(count);
    out.word(" block ");
    out.number(height);
    out.word("\n");
}

/// Puts the line of a journal that was carried over.
pub fn put_migrated<K: Sink>(count: u64, out: &mut Printer<'_, K>)
    ensures { Puts K.taken K.faults K.same (migrated_line count) out.old out.new }
{
    out.word("migrated ");
    out.number(count);
    out.word("\n");
}

/// Puts the line of a port that is listened on.
pub fn put_listening<K: Sink>(port: u16, out: &mut Printer<'_, K>)
    ensures { Puts K.taken K.faults K.same (listening_line port) out.old out.new }
{
    out.word("listening ");
    out.number(port as u64);
    out.word("\n");
}

/// Puts the line of how many connections were accepted.
pub fn put_served<K: Sink>(count: u64, out: &mut Printer<'_, K>)
    ensures { Puts K.taken K.faults K.same (served_line count) out.old out.new }
{
    out.word("served ");
    out.number(count);
    out.word("\n");
}

/// Puts the line of a tree, after the index of the commitment that it leads to. It takes no memory.
pub fn put_tree<K: Sink>(index: u64, tree: &Tree, out: &mut Printer<'_, K>)
    ensures { Puts K.taken K.faults K.same (tree_line index (spelled tree.now)) out.old out.new }
{
    out.number(index);
    out.word(" ");
    put_tokens(tree.tokens(), out);
    out.word("\n");
}

/// Puts the spellings of tokens in hexadecimal digits.
fn put_tokens<K: Sink>(tokens: &[Token], out: &mut Printer<'_, K>)
    ensures { Puts K.taken K.faults K.same (encode_lower (spelled tokens.now)) out.old out.new }
{
    let mut room = [0; MAX_SPELLED_ATTESTATION];
    for token in tokens {
        let length = spell_token(token, &mut room);
        out.hex(&room[..length]);
    }
}

/// Writes the spelling of a token at the start, and answers how many bytes it has.
fn spell_token(token: &Token, room: &mut [u8]) -> usize
    requires { MAX_SPELLED_ATTESTATION ≤ length room.old }
    ensures in_range { result ≤ length room.old }
    ensures spelled { take result room.new ≡ spell token.now }
{
    match token {
        Token::Fork => {
            room[0] = 0xff;
            1
        }
        Token::Op(op) => {
            let Some(prefix) = room.first_chunk_mut::<MAX_SPELLED_OP>() else {
                unreachable!();
            };
            spell_op(op, prefix)
        }
        Token::Attestation(attestation) => {
            let Some(prefix) = room.first_chunk_mut::<MAX_SPELLED_ATTESTATION>() else {
                unreachable!();
            };
            spell_attestation(attestation, prefix)
        }
    }
}
