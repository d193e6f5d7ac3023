//! The draft of a file.
ghost use Rattle.std.specs.Prelude.{◌≡◌, ◌≤◌, ◌∷◌, ◌++◌, [], List, Some, IfOk, length, map};
ghost use Rattle.std.specs.List.{slice_get};
ghost use Rattle.ots_calendar_url.specs.CalendarUrl.{text_of};
ghost use Rattle.ots_draft.specs.Draft.{IsDraftOf, post_uri, waiting};
ghost use Rattle.ots_draft.specs.inner.Gathering.{HasPaths, HasPathsAny};
ghost use Rattle.ots_merkle.specs.Hashes.{AreHashes};
ghost use Rattle.ots_stamp.specs.Stamped.{leaf};
ghost use Rattle.ots_tree.specs.Wire.{Path};

use crate::address::post_uri;
use ots_attest::Attestation;
use ots_base::OutOfMemory;
use ots_calendar_url::CalendarUrl;
use ots_canon::canon;
use ots_ops::HashOp;
use ots_stamp::{Target, Ways};
use ots_tree::{Detached, Tree, beside, single, under};
use std::alloc::Global;

/// The draft of a file whose leaf stands at the place `i` among those of `ways`: a proof whose paths all
/// lead from the file's digest to the root, and wait there to be sent to these URLs, at least one.
///
/// It takes memory of `alloc` for the way, at most 66 operations, and a pending attestation for each URL.
pub fn draft_proof(
    alloc: Global,
    ways: &Ways,
    i: usize,
    target: &Target,
    urls: &[CalendarUrl],
) -> Result<Detached, OutOfMemory>
    requires hashes { AreHashes ways.now }
    requires leaf { slice_get ways.now i ≡ Some (leaf target.now) }
    requires some { 1 ≤ length urls.now }
    ensures { IfOk result (IsDraftOf ways.now i target.now (map text_of urls.now)) }
{
    let _ = ways.depth();
    let ops = ways.way(alloc, i, &target.nonce)?;
    let form = canon(alloc, &waiting_tree(alloc, urls)?)?;
    let tree = under(alloc, ops.items(), form)?;
    Ok(Detached {
        hash: HashOp::Sha256,
        digest: target.digest,
        tree,
    })
}

/// One node with an attestation for each URL, which waits to be sent there.
fn waiting_tree(alloc: Global, urls: &[CalendarUrl]) -> Result<Tree, OutOfMemory>
    requires { 1 ≤ length urls.now }
    ensures { IfOk result (HasPaths (waiting [] (map text_of urls.now))) }
{
    let mut all: Option<Tree> = None;
    for url in urls {
        all = Some(beside_any(all, waiting_end(alloc, url)?)?);
    }
    Ok(all.unwrap())
}

/// The items of a tree after those that are gathered.
fn beside_any(gathered: Option<Tree>, tree: Tree) -> Result<Tree, OutOfMemory>
    ensures { (ps qs : List Path) → HasPathsAny ps gathered → HasPaths qs tree → IfOk result (HasPaths (ps ++ qs)) }
{
    match gathered {
        Some(before) => beside(before, tree),
        None => Ok(tree),
    }
}

/// The attestation that waits to be sent to the URL.
fn waiting_end(alloc: Global, url: &CalendarUrl) -> Result<Tree, OutOfMemory>
    ensures { IfOk result (HasPaths (waiting [] (text_of url.now ∷ []))) }
{
    single(alloc, &[], Attestation::Pending(post_uri(alloc, url)?))
}
