//! Asking calendars to complete a proof.
ghost use Rattle.std.specs.Prelude.{◌≡◌, ◌≤◌, ◌<◌, ℕ, List, [], ◌∷◌, length, map, Some, IfOk, IfSome, OnErr};
ghost use Rattle.std.specs.List.{filter_map, slice_get};
ghost use Rattle.std.specs.Option.{option_copied, option_map};
ghost use Rattle.ots_asking.specs.Conversation.{ConverseUpTo};
ghost use Rattle.ots_base.specs.declared.limits.TheConstants.{MAX_OPERATIONS};
ghost use Rattle.ots_ops.specs.HashOp.{digest_length};
ghost use Rattle.ots_pending.specs.Completed.{AreSoundFor, IsCompleted};
ghost use Rattle.ots_pending.specs.Pairs.{AreAskable, ArePairs, PairAt};
ghost use Rattle.ots_tree.specs.Sound.{IsSoundPre};
ghost use Rattle.ots_upgrade.specs.AskedList.{asked_with};
ghost use Rattle.ots_upgrade.specs.Upgrading.{address_of, questions, to_get, tree_of, AsksFor, AsksIf};
ghost use Rattle.ots_upgrade.specs.Upgrading.{AsksUpTo, CompletesWithin, HasTree, UpgradesProof, UpgradesUpTo};
ghost use Rattle.ots_upgrade.specs.Upgrading.{UpgradesWithin};

use crate::asking::AskedList;
use crate::laws::one_list_of_pairs;
use ots_address::Address;
use ots_asking::{Outcome, converse};
use ots_base::OutOfMemory;
use ots_http::Asked;
use ots_ops::Message;
use ots_outside::Dialer;
use ots_pending::{Pairs, completed, completed_within, pending_pairs};
use ots_tree::{Detached, Shape, Tree, limits_of_detached};
use std::alloc::Global;

/// A proof, and what calendars were asked to complete it.
#[derive(Drop)]
pub struct Upgraded {
    /// The proof with all that they answered.
    pub proof: Detached,
    /// What came of asking for each pair of a URI and a message.
    pub asked: AskedList,
}

/// Asks calendars to complete a proof: for each pair of a URI and a message that its pending paths ask
/// for, once, in the order in which the pairs first come in preorder, in a conversation of its own.
///
/// A pair is asked for where an address has exactly the URI's text; where none has, it has no outcome.
/// An answer is good where the whole body is a tree that may stand below the message and as many
/// operations as are before the pair where it stands deepest. The new proof has the old paths and, for
/// each pending path with a good answer, its operations followed by each path of that tree. Pending
/// attestations stay.
///
/// For each pair it looks at all addresses. A message is copied for one conversation at a time, and the answer
/// has it once, also where several pairs ask for it. Good trees are copied once.
pub fn upgrade_with<D: Dialer>(
    alloc: Global,
    dialer: &mut D,
    calendars: &[Address],
    proof: &Detached,
) -> Result<Upgraded, OutOfMemory>
    ensures upgraded { IfOk result (UpgradesProof D.told D.faults calendars.now proof.now dialer.old dialer.new) }
    ensures broken_off { OnErr result (UpgradesUpTo D.told D.faults calendars.now proof.now dialer.old dialer.new) }
{
    limits_of_detached(proof);
    one_list_of_pairs(proof);
    let pairs = pending_pairs(alloc, proof)?;
    let outcomes = ask_for_all(alloc, dialer, calendars, &pairs)?;
    let tree = completed_by(alloc, proof, &pairs, &outcomes)?;
    let proof = Detached {
        hash: proof.hash,
        digest: proof.digest,
        tree,
    };
    let asked = AskedList::new(pairs, outcomes);
    Ok(Upgraded { proof, asked })
}

/// What calendars were asked to complete a proof, and the new proof where it is not too long.
#[derive(Drop)]
pub struct UpgradedWithin {
    /// The proof with all that they answered, or none where its tree is too long.
    pub proof: Option<Detached>,
    /// What came of asking for each pair of a URI and a message.
    pub asked: AskedList,
}

/// Asks calendars as `upgrade_with` does, and completes the proof where the new tree is spelled in at most
/// `most` bytes. Of a tree that is too long no more is made than that takes, in memory as `completed_within` of
/// `ots_pending` says.
pub fn upgrade_within<D: Dialer>(
    alloc: Global,
    dialer: &mut D,
    calendars: &[Address],
    proof: &Detached,
    most: u32,
) -> Result<UpgradedWithin, OutOfMemory>
    ensures upgraded { IfOk result
        (UpgradesWithin D.told D.faults calendars.now proof.now most dialer.old dialer.new) }
    ensures broken_off { OnErr result (UpgradesUpTo D.told D.faults calendars.now proof.now dialer.old dialer.new) }
{
    one_list_of_pairs(proof);
    let pairs = pending_pairs(alloc, proof)?;
    let outcomes = ask_for_all(alloc, dialer, calendars, &pairs)?;
    let proof = proof_within(alloc, proof, &pairs, &outcomes, most)?;
    let asked = AskedList::new(pairs, outcomes);
    Ok(UpgradedWithin { proof, asked })
}

/// The proof that what came of asking for its pairs completes, where its tree is not too long.
fn proof_within(
    alloc: Global,
    proof: &Detached,
    pairs: &Pairs,
    outcomes: &[Option<Outcome>],
    most: u32,
) -> Result<Option<Detached>, OutOfMemory>
    requires pairs { ArePairs proof.now pairs.now }
    requires one_each { length outcomes.now ≡ length pairs.now }
    requires sound { AreSoundFor pairs.now (map tree_of outcomes.now) }
    ensures { IfOk result (CompletesWithin proof.now pairs.now (map tree_of outcomes.now) most) }
{
    limits_of_detached(proof);
    let trees = good_trees(alloc, outcomes)?;
    let tree = completed_within(alloc, proof, pairs, &trees, most)?;
    Ok(with_tree(proof, tree))
}

/// The proof with another tree, if there is one.
fn with_tree(proof: &Detached, tree: Option<Tree>) -> Option<Detached>
    requires digest { length proof.now.digest ≡ digest_length proof.now.hash }
    requires sound { IfSome tree (IsSoundPre (length proof.now.digest) 0) }
    ensures { HasTree proof.now tree result }
{
    Some(Detached {
        hash: proof.hash,
        digest: proof.digest,
        tree: tree?,
    })
}

/// Asks for each pair in order: what came of each.
fn ask_for_all<D: Dialer>(
    alloc: Global,
    dialer: &mut D,
    calendars: &[Address],
    pairs: &Pairs,
) -> Result<Vec<Option<Outcome>>, OutOfMemory>
    requires { AreAskable pairs.now }
    ensures one_each { IfOk result (λ outcomes. length outcomes.items ≡ length pairs.now) }
    ensures asked { IfOk result (λ outcomes. AsksFor D.told D.faults calendars.now pairs.now dialer.old dialer.new
        (asked_with pairs.now outcomes.items)) }
    ensures broken_off { OnErr result (ConverseUpTo D.told D.faults (questions calendars.now pairs.now) dialer.old
        dialer.new) }
{
    let mut outcomes = Vec::with_capacity(alloc, pairs.len())?;
    for i in 0..pairs.len() {
        outcomes.push(ask_for(alloc, dialer, calendars, pairs, i)?)?;
    }
    Ok(outcomes)
}

/// Asks for the pair at this place.
fn ask_for<D: Dialer>(
    alloc: Global,
    dialer: &mut D,
    calendars: &[Address],
    pairs: &Pairs,
    i: usize,
) -> Result<Option<Outcome>, OutOfMemory>
    requires askable { AreAskable pairs.now }
    requires place { i < length pairs.now }
    ensures asked { IfOk result (λ outcome. (p : PairAt) → slice_get pairs.now i ≡ Some p
        → AsksFor D.told D.faults calendars.now (p ∷ []) dialer.old dialer.new
        (asked_with (p ∷ []) (outcome ∷ []))) }
    ensures broken_off { OnErr result ((p : PairAt) → slice_get pairs.now i ≡ Some p
        → ConverseUpTo D.told D.faults (questions calendars.now (p ∷ [])) dialer.old dialer.new) }
{
    let address = address_of(calendars, pairs.uri(i).text());
    ask_at(alloc, dialer, address, pairs.message(i), pairs.depth(i))
}

/// The first address whose text is exactly this.
fn address_of<'a>(calendars: &'a [Address], uri: &str) -> Option<&'a Address>
    ensures { option_copied result ≡ address_of calendars.now uri.now }
{
    for address in calendars {
        if address.text() == uri {
            return Some(address);
        }
    }
    None
}

/// Asks for a message at an address, if there is one. The answer is to stand below the message and so
/// many operations.
fn ask_at<D: Dialer>(
    alloc: Global,
    dialer: &mut D,
    address: Option<&Address>,
    message: &Message,
    depth: u32,
) -> Result<Option<Outcome>, OutOfMemory>
    requires least { 1 ≤ length message.now }
    requires depth { depth ≤ MAX_OPERATIONS }
    ensures asked { IfOk result
        (AsksIf D.told D.faults (option_map (to_get message.now depth) (option_copied address.entry)) dialer.old
        dialer.new) }
    ensures broken_off { OnErr result (AsksUpTo D.told D.faults
        (option_map (to_get message.now depth) (option_copied address.entry)) dialer.old dialer.new) }
{
    let Some(address) = address else {
        return Ok(None);
    };
    let shape = Shape {
        length: message.bytes().len() as u32,
        depth,
    };
    let asked = Asked::Get(message.copy()?);
    let outcome = converse(alloc, dialer, address, &asked, shape)?;
    Ok(Some(outcome))
}

/// The proof that what came of asking for its pairs completes.
fn completed_by(
    alloc: Global,
    proof: &Detached,
    pairs: &Pairs,
    outcomes: &[Option<Outcome>],
) -> Result<Tree, OutOfMemory>
    requires pairs { ArePairs proof.now pairs.now }
    requires one_each { length outcomes.now ≡ length pairs.now }
    requires sound { AreSoundFor pairs.now (map tree_of outcomes.now) }
    ensures completed { IfOk result (IsCompleted proof.now pairs.now (map tree_of outcomes.now)) }
    ensures sound { IfOk result (IsSoundPre (length proof.now.digest) 0) }
{
    let trees = good_trees(alloc, outcomes)?;
    completed(alloc, proof, pairs, &trees)
}

/// For each pair the tree that was answered for it, if one was.
fn good_trees(alloc: Global, outcomes: &[Option<Outcome>]) -> Result<Vec<Option<Tree>>, OutOfMemory>
    ensures { IfOk result (λ trees. trees.items ≡ map tree_of outcomes.now) }
{
    let mut trees = Vec::with_capacity(alloc, outcomes.len())?;
    for outcome in outcomes {
        trees.push(good_tree(outcome)?)?;
    }
    Ok(trees)
}

/// The tree that was answered, if one was.
fn good_tree(outcome: &Option<Outcome>) -> Result<Option<Tree>, OutOfMemory>
    ensures { IfOk result (λ tree. tree ≡ tree_of outcome.now) }
{
    match outcome {
        Some(Outcome::Tree(tree)) => Ok(Some(tree.copy()?)),
        _ => Ok(None),
    }
}
