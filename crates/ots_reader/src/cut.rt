//! Tokens that are cut between two pieces.
ghost use Rattle.std.specs.Prelude.{◌≡◌, ◌≤◌, ◌+◌, ◌++◌, length, vec_capacity};
ghost use Rattle.ots_tree.specs.declared.token.Token.{Token};
ghost use Rattle.ots_tree.specs.TokenRef.{token_of};
ghost use Rattle.ots_reader.specs.Cut.{FindsWhole, IsCut, IsSpelling, ReadsOn, ReadsWhole};

use crate::fault::Reason;
use crate::token::read_token;
use ots_attest::MAX_SPELLED_ATTESTATION;
use ots_tree::TokenRef;

/// How many bytes of a piece are kept at once after the first bytes of a token.
const KEPT_AT_ONCE: usize = 64;

/// The most bytes that are kept: those of the longest token, and some after it.
pub(crate) const MAX_KEPT: usize = MAX_SPELLED_ATTESTATION + KEPT_AT_ONCE;

/// How many bytes of the piece belong to the token whose first bytes are kept, where it ends within the
/// piece. Its spelling is kept then. Where it ends later, the piece is kept after its first bytes. It
/// takes no memory.
///
/// The piece is kept a few bytes at a time until the token is whole, so no more is kept than one token and
/// less than `KEPT_AT_ONCE` bytes after it. That a token goes on shows in its first bytes and its length,
/// so its others aren't read again and again.
pub(crate) fn read_on(kept: &mut Vec<u8>, piece: &[u8]) -> Result<Option<usize>, Reason>
    requires cut { IsCut kept.old.items }
    requires room { MAX_KEPT ≤ vec_capacity kept.old }
    ensures read { ReadsOn kept.old.items piece.now kept.new.items result }
    ensures room { vec_capacity kept.new ≡ vec_capacity kept.old }
{
    let start = kept.len();
    let mut end = 0;
    while end < piece.len() {
        let count = KEPT_AT_ONCE.min(piece.len() - end);
        keep(kept, &piece[end..end + count]);
        end += count;
        if let Some(length) = token_length(kept)? {
            kept.truncate(length);
            return Ok(Some(length - start));
        }
    }
    Ok(None)
}

/// Keeps these bytes after the others, where there is room for them.
pub(crate) fn keep(kept: &mut Vec<u8>, bytes: &[u8])
    requires { length kept.old.items + length bytes.now ≤ vec_capacity kept.old }
    ensures items { kept.new.items ≡ kept.old.items ++ bytes.now }
    ensures room { vec_capacity kept.new ≡ vec_capacity kept.old }
{
    let mut count = 0;
    while count < bytes.len() {
        kept.push_reserved(bytes[count]);
        count += 1;
    }
}

/// How many of the bytes spell the token at their start, where it is whole.
fn token_length(bytes: &[u8]) -> Result<Option<usize>, Reason>
    ensures { ReadsWhole bytes.now result }
{
    match whole_token(bytes)? {
        Some((_, length)) => Ok(Some(length)),
        None => Ok(None),
    }
}

/// The token at the start of the bytes, where it is whole, and how many of them spell it.
#[inline(always)]
pub(crate) fn whole_token(bytes: &[u8]) -> Result<Option<(TokenRef<'_>, usize)>, Reason>
    ensures { FindsWhole bytes.now result }
{
    match read_token(bytes) {
        Ok(found) => Ok(Some(found)),
        Err(Reason::Truncated) => Ok(None),
        Err(reason) => Err(reason),
    }
}

/// The token that these bytes spell, where its parts stand.
pub(crate) fn token_in(bytes: &[u8]) -> TokenRef<'_>
    requires { (x : Token) × IsSpelling bytes.now x }
    ensures { (x : Token) → IsSpelling bytes.now x → token_of result ≡ x }
{
    match read_token(bytes) {
        Ok((token, _)) => token,
        Err(_) => unreachable!(),
    }
}
