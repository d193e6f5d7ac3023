//! The parts of a line.
ghost use Rattle.std.specs.Prelude.{◌≡◌, ◌∷◌, ℕ, List, MatchOption};
ghost use Rattle.hex.specs.Hex.{encode_lower};
ghost use Rattle.ots_sums.specs.inner.Parts.{IsBody, IsDigest, IsRest};

/// The most bytes of a line, with its line feed. The limit is this project's: a path has at most 4,096 bytes on Linux.
pub const MAX_LINE: usize = 4_200;

/// The digits of a digest.
const DIGITS: usize = 64;

/// What is after the mark of a line, where it has one.
pub(crate) fn after_mark(line: &[u8]) -> Option<&[u8]>
    ensures { MatchOption result ((text : List ℕ) → line.now ≡ 92 ∷ text → ⊥) (λ text. line.now ≡ 92 ∷ text.now) }
{
    match line {
        [b'\\', text @ ..] => Some(text),
        _ => None,
    }
}

/// What stands in a line after its mark.
#[derive(Clone, Copy)]
pub(crate) struct Body<'a> {
    /// The digest.
    pub digest: [u8; 32],
    /// The name, as it is spelled.
    pub name: &'a [u8],
}

/// The digest and the name of a line, after its mark.
pub(crate) fn body_of(text: &[u8]) -> Option<Body<'_>>
    ensures { MatchOption result ((digest name : List ℕ) → IsBody text.now digest name → ⊥)
        (λ body. IsBody text.now body.digest body.name.now) }
{
    let (digits, rest) = text.split_at_checked(DIGITS)?;
    let digest = digest_of(digits)?;
    let name = name_after(rest)?;
    Some(Body { digest, name })
}

/// What stands after a blank and how the file was read.
fn name_after(rest: &[u8]) -> Option<&[u8]>
    ensures { MatchOption result ((name : List ℕ) → IsRest rest.now name → ⊥) (λ name. IsRest rest.now name.now) }
{
    match rest {
        [b' ', b' ' | b'*', name @ ..] => Some(name),
        _ => None,
    }
}

/// The digest that these digits are the text of, in lower case.
fn digest_of(digits: &[u8]) -> Option<[u8; 32]>
    ensures { MatchOption result ((digest : List ℕ) → IsDigest digest → digits.now ≡ encode_lower digest → ⊥)
        (λ digest. (digits.now ≡ encode_lower digest) × IsDigest digest) }
{
    let mut digest = [0; 32];
    let mut text = [0; DIGITS];
    hex::decode_to_slice(digits, &mut digest).ok()?;
    hex::encode_to_slice(digest, &mut text).ok()?;
    if text.as_slice() != digits {
        return None;
    }
    Some(digest)
}
