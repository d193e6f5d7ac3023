//! Writing the spelling of a tree.
ghost use Rattle.std.specs.Prelude.{◌≡◌, ◌≤◌, ◌<◌, ◌+◌, ◌++◌, length, take, OnOk, IfOk};
ghost use Rattle.ots_base.specs.Cause.{HasCause};
ghost use Rattle.ots_outside.specs.Streams.{Takes, TakesPrefix};
ghost use Rattle.ots_tree.specs.Wire.{spell, spelled};
ghost use Rattle.ots_outside.specs.Buffered.{Buffered};

use crate::token::Token;
use crate::tree::Tree;
use ots_attest::{MAX_SPELLED_ATTESTATION, spell_attestation};
use ots_ops::{MAX_SPELLED_OP, spell_op};
use ots_outside::{Failed, Sink, write_all};

/// A write to the sink failed, and the sink has counted the fault.
#[derive(Clone, Copy, Debug, PartialEq, Eq)]
pub struct WriteFault;

impl From<Failed> for WriteFault {
    fn from(_: Failed) -> Self {
        WriteFault
    }
}

/// How many bytes are gathered, so that each write but the last has at least 24,566 of them: a token
/// more might not fit.
const GATHERED: usize = 32_768;

/// Writes the spelling of a tree: the spellings of its tokens in preorder, one after the other.
///
/// `WriteFault` comes only where the sink's count of faults rose, and the sink has then taken a
/// prefix of the spelling. It takes no memory, and hands the sink at least 24,566 bytes at once, as
/// long as as many are left.
pub fn spell_to<K: Sink>(tree: &Tree, sink: &mut K) -> Result<(), WriteFault>
    ensures whole { OnOk result (Takes (K.taken sink.old) (K.taken sink.new) (spelled tree.now)) }
    ensures prefix { TakesPrefix (K.taken sink.old) (K.taken sink.new) (spelled tree.now) }
    ensures cause { HasCause (K.faults sink.old) (K.faults sink.new) result }
    ensures same { K.same sink.old sink.new }
{
    let mut gathered = [0; GATHERED];
    spell_tokens(tree.tokens(), sink, &mut gathered)?;
    Ok(())
}

/// Writes the spellings of these tokens, gathered in the buffer.
fn spell_tokens<K: Sink>(tokens: &[Token], sink: &mut K, buffer: &mut [u8]) -> Result<(), Failed>
    requires { MAX_SPELLED_ATTESTATION ≤ length buffer.old }
    ensures whole { OnOk result (Takes (K.taken sink.old) (K.taken sink.new) (spelled tokens.now)) }
    ensures prefix { TakesPrefix (K.taken sink.old) (K.taken sink.new) (spelled tokens.now) }
    ensures cause { HasCause (K.faults sink.old) (K.faults sink.new) result }
    ensures same { K.same sink.old sink.new }
{
    let mut filled = 0;
    for token in tokens {
        filled = make_room(sink, buffer, filled)?;
        filled = gather(token, buffer, filled);
    }
    write_all(sink, &buffer[..filled])
}

/// Leaves room for a token after the filled part, which is written where there is none.
fn make_room<K: Sink>(sink: &mut K, buffer: &[u8], filled: usize) -> Result<usize, Failed>
    requires room { MAX_SPELLED_ATTESTATION ≤ length buffer.now }
    requires in_range { filled ≤ length buffer.now }
    ensures room { IfOk result (λ left. left + MAX_SPELLED_ATTESTATION ≤ length buffer.now) }
    ensures gathered { IfOk result (λ left. Buffered (K.taken sink.old) (K.taken sink.new) (take filled buffer.now)
        (take left buffer.now)) }
    ensures prefix { TakesPrefix (K.taken sink.old) (K.taken sink.new) (take filled buffer.now) }
    ensures cause { HasCause (K.faults sink.old) (K.faults sink.new) result }
    ensures same { K.same sink.old sink.new }
{
    if buffer.len() - filled >= MAX_SPELLED_ATTESTATION {
        return Ok(filled);
    }
    write_all(sink, &buffer[..filled])?;
    Ok(0)
}

/// Adds the spelling of a token to the filled part, and answers how long that is then.
fn gather(token: &Token, buffer: &mut [u8], filled: usize) -> usize
    requires { filled + MAX_SPELLED_ATTESTATION ≤ length buffer.old }
    ensures in_range { result ≤ length buffer.old }
    ensures gathered { take result buffer.new ≡ take filled buffer.old ++ spell token.now }
{
    filled + put_token(token, &mut buffer[filled..])
}

/// Writes the spelling of a token at the start, and answers how many bytes it has.
fn put_token(token: &Token, out: &mut [u8]) -> usize
    requires { MAX_SPELLED_ATTESTATION ≤ length out.old }
    ensures in_range { result ≤ length out.old }
    ensures spelled { take result out.new ≡ spell token.now }
{
    match token {
        Token::Fork => {
            out[0] = 0xff;
            1
        }
        Token::Op(op) => {
            let Some(room) = out.first_chunk_mut::<MAX_SPELLED_OP>() else {
                unreachable!();
            };
            spell_op(op, room)
        }
        Token::Attestation(attestation) => {
            let Some(room) = out.first_chunk_mut::<MAX_SPELLED_ATTESTATION>() else {
                unreachable!();
            };
            spell_attestation(attestation, room)
        }
    }
}
