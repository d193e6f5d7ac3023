//! Laws of drafts.
ghost use Rattle.std.specs.Prelude.{◌≡◌, ◌↔◌, ◌≤◌, ℕ, List, Some, length};
ghost use Rattle.std.specs.List.{AllByRecursion, slice_get};
ghost use Rattle.ots_attest.specs.Uri.{IsUri};
ghost use Rattle.ots_calendar_url.specs.CalendarUrl.{IsUrl};
ghost use Rattle.ots_calendar_url.specs.declared.url.Scheme.{Scheme};
ghost use Rattle.ots_draft.specs.Draft.{AreAddresses, IsDraft, IsDraftOf, IsPost, IsTaken, post_uri};
ghost use Rattle.ots_merkle.specs.CalendarTree.{root};
ghost use Rattle.ots_merkle.specs.Hashes.{AreHashes};
ghost use Rattle.ots_ops.specs.Value.{value};
ghost use Rattle.ots_ops.specs.declared.hash_op.HashOp.TheVariants.{Sha256};
ghost use Rattle.ots_ops.specs.declared.op.Op.{Op};
ghost use Rattle.ots_stamp.specs.Stamped.{IsStampOf, leaf, leaves, to_root};
ghost use Rattle.ots_stamp.specs.Ways.{way_from};
ghost use Rattle.ots_stamp.specs.declared.target.Target.{Target};
ghost use Rattle.ots_tree.specs.declared.detached.Detached.{Detached};
ghost use Rattle.ots_tree.specs.declared.token.Token.{Token};

/// The URI that waits to be sent to a calendar's URL is one that a pending attestation may have, and is
/// that of no other address.
pub fn post_uris()
    ensures uri { (address : List ℕ) (scheme : Scheme) → IsUrl address scheme → IsUri (post_uri address) }
    ensures one { (uri first second : List ℕ) → IsPost uri first → IsPost uri second → first ≡ second }
{}

/// The draft of a file is a draft by the way from the file's digest to the root, and the root is the
/// message that it sends.
pub fn drafts_wait()
    ensures draft { (leaves : List (List ℕ)) (i : ℕ) (t : Target) (addresses : List (List ℕ)) (proof : Detached)
        → AreHashes leaves → slice_get leaves i ≡ Some (leaf t) → 1 ≤ length addresses → AreAddresses addresses
        → IsDraftOf leaves i t addresses proof → IsDraft proof (way_from leaves i t.nonce) }
    ensures message { (leaves : List (List ℕ)) (i : ℕ) (t : Target) → AreHashes leaves
        → slice_get leaves i ≡ Some (leaf t) → value (way_from leaves i t.nonce) t.digest ≡ Some (root leaves) }
{}

/// A proof is a draft by one list of operations at most, and trees make one tree of it.
pub fn one_draft()
    ensures operations { (proof : Detached) (first second : List Op) → IsDraft proof first → IsDraft proof second
        → first ≡ second }
    ensures taken { (proof : Detached) (ops : List Op) (trees : List (List Token)) (first second : Detached)
        → IsTaken proof ops trees first → IsTaken proof ops trees second → first.tree ≡ second.tree }
{}

/// What trees make of a draft by the operations of a file that is stamped with others is what stamping makes
/// of these trees.
pub fn taken_as_stamped()
    ensures { (targets : List Target) (i : ℕ) (t : Target) (trees : List (List Token)) (proof made : Detached)
        → proof.hash ≡ Sha256 → proof.digest ≡ t.digest
        → IsStampOf targets i t trees made ↔ IsTaken proof (to_root (leaves targets) i t) trees made }
{}
