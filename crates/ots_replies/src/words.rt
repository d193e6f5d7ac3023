//! The words of a line.
ghost use Rattle.std.specs.Prelude.{ℕ, List, IfNone, IfSome};
ghost use Rattle.ots_replies.specs.inner.Words.{Cuts, HasWords};

use memchr::memchr;

/// The words of a line, which blanks part.
#[derive(Clone, Copy)]
pub(crate) struct Words<'a> {
    pub(crate) kind: &'a [u8],
    pub(crate) url: &'a [u8],
    pub(crate) message: &'a [u8],
    pub(crate) code: &'a [u8],
    pub(crate) body: &'a [u8],
}

/// The five words of a line, where it has as many. The last may have blanks.
pub(crate) fn words_of(line: &[u8]) -> Option<Words<'_>>
    ensures some { IfSome result (λ w. HasWords line.now w.kind.now w.url.now w.message.now w.code.now w.body.now) }
    ensures none { IfNone result ((kind url message code body : List ℕ) → HasWords line.now kind url message code body
        → ⊥) }
{
    let (kind, rest) = cut_word(line)?;
    let (url, rest) = cut_word(rest)?;
    let (message, rest) = cut_word(rest)?;
    let (code, body) = cut_word(rest)?;
    Some(Words {
        kind,
        url,
        message,
        code,
        body,
    })
}

/// The word before the first blank, and what follows the blank.
fn cut_word(text: &[u8]) -> Option<(&[u8], &[u8])>
    ensures some { IfSome result (λ cut. Cuts text.now cut.0.now cut.1.now) }
    ensures none { IfNone result ((word rest : List ℕ) → Cuts text.now word rest → ⊥) }
{
    let end = memchr(b' ', text)?;
    Some((&text[..end], &text[end + 1..]))
}
