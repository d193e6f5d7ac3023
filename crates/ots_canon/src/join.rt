//! Joining proofs, and comparing trees by their paths.
ghost use Rattle.std.specs.Prelude.{◌≡◌, ◌≢◌, ◌↔◌, IfOk, IfErr, IsErrAnd, IsTrue};
ghost use Rattle.std.specs.List.{AllByRecursion};
ghost use Rattle.ots_tree.specs.Wire.{IsToken};
ghost use Rattle.ots_canon.specs.Join.{HaveSamePaths, IsMergeOf, IsMergeError, IsJoinOf, HaveOnePair};

use crate::form::canon;
use crate::merging::merged_tokens;
use crate::tokens::{Tokens, compare_steps};
use ots_base::OutOfMemory;
use ots_ops::{Digest, HashOp};
use ots_tree::{Detached, Token, Tree, from_tokens, limits_of_detached};
use std::alloc::Global;

/// Why proofs cannot be joined.
#[derive(Clone, Copy, Debug, PartialEq, Eq)]
pub enum MergeError {
    /// They are of different digests, or their digests are made by different hashes.
    Differs {
        /// The hash of the first proof.
        first_hash: HashOp,
        /// The digest of the first proof.
        first_digest: Digest,
        /// The hash of the second proof.
        second_hash: HashOp,
        /// The digest of the second proof.
        second_digest: Digest,
    },
    /// Memory ran out.
    OutOfMemory,
}

impl From<OutOfMemory> for MergeError {
    ghost use Rattle.std.specs.Prelude.{◌≡◌};
    ghost use Rattle.ots_canon.specs.declared.join.MergeError.TheVariants as merge_error;

    ghost from_gives = { λ _ e. e ≡ merge_error.OutOfMemory };

    fn from(_: OutOfMemory) -> Self {
        MergeError::OutOfMemory
    }
}

/// The canonical proof with the paths of both.
///
/// `Differs`, with the hashes and digests of both, exactly where the hashes or the digests differ; no
/// memory is taken then.
pub fn merge(alloc: Global, first: &Detached, second: &Detached) -> Result<Detached, MergeError>
    ensures ok { IfOk result (IsMergeOf first.now second.now) }
    ensures err { IfErr result (IsMergeError first.now second.now) }
    ensures differs { (HaveOnePair first.now second.now → ⊥) → IsErrAnd result (λ e. e ≢ MergeError.OutOfMemory) }
{
    if first.hash != second.hash || first.digest != second.digest {
        return Err(MergeError::Differs {
            first_hash: first.hash,
            first_digest: first.digest,
            second_hash: second.hash,
            second_digest: second.digest,
        });
    }
    limits_of_detached(first);
    limits_of_detached(second);
    let tree = joined(alloc, &first.tree, &second.tree)?;
    Ok(Detached {
        hash: first.hash,
        digest: first.digest,
        tree,
    })
}

/// The canonical tree with the paths of both.
fn joined(alloc: Global, first: &Tree, second: &Tree) -> Result<Tree, OutOfMemory>
    ensures { IfOk result (λ tree. IsJoinOf first.now second.now tree) }
{
    let both = Tokens::new(alloc, first.tokens(), second.tokens())?;
    let tokens = merged_tokens(alloc, &both, &[0, first.tokens().len()])?;
    from_tokens(alloc, tokens)
}

/// Whether two trees have the same set of paths.
pub fn equal(alloc: Global, first: &Tree, second: &Tree) -> Result<bool, OutOfMemory>
    ensures { IfOk result (λ same. IsTrue same ↔ HaveSamePaths first.now second.now) }
{
    let first = canon(alloc, first)?;
    let second = canon(alloc, second)?;
    Ok(are_same(first.tokens(), second.tokens()))
}

/// Whether these are the same tokens.
fn are_same(first: &[Token], second: &[Token]) -> bool
    requires first_limits { AllByRecursion IsToken first.now }
    requires second_limits { AllByRecursion IsToken second.now }
    ensures { IsTrue result ↔ (first.now ≡ second.now) }
{
    if first.len() != second.len() {
        return false;
    }
    for (at, token) in first.iter().enumerate() {
        if !compare_steps(token, &second[at]).is_eq() {
            return false;
        }
    }
    true
}
