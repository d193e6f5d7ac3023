//! What the definitions of a round say, beside what the call says.
ghost use Rattle.std.specs.Prelude.{◌≡◌, ◌≤◌, ◌<◌, ◌+◌, ℕ, List, Some, length, map, slice_get};
ghost use Rattle.std.specs.List.{AllByRecursion, flat_map};
ghost use Rattle.ots_address.specs.Address.{AddressParts};
ghost use Rattle.ots_base.specs.Cause.{Rose};
ghost use Rattle.ots_base.specs.declared.limits.TheConstants.{MAX_REPLY_BODY};
ghost use Rattle.ots_http.specs.ReplyText.{reply_bytes};
ghost use Rattle.ots_http.specs.Seen.{LinkSeen, Takes};
ghost use Rattle.ots_http.specs.declared.replying.Reply.TheVariants as reply;
ghost use Rattle.ots_http.specs.declared.word.Word.TheVariants.{Upstream};
ghost use Rattle.ots_merkle.specs.CalendarTree.{root};
ghost use Rattle.ots_ops.specs.Value.{value};
ghost use Rattle.ots_tree.specs.Made.{after};
ghost use Rattle.ots_tree.specs.Sound.{IsSoundPre};
ghost use Rattle.ots_tree.specs.Wire.{Node, paths, pre};
ghost use Rattle.ots_tree.specs.declared.token.Token.{Token};
ghost use Rattle.ots_asking.specs.Outcome.{AreSound};
ghost use Rattle.ots_stamp.specs.Stamped.{AreJoined, good_trees};
ghost use Rattle.ots_stamp.specs.Ways.{way_from};
ghost use Rattle.ots_asking.specs.declared.outcome.Outcome.{Outcome};
ghost use Rattle.ots_gateway.specs.Round.{Asks, Given, Serves, below, digest, in_words, too_few, tree_from};
ghost use Rattle.ots_gateway.specs.Taking.{size, sizes, taken, taking};
ghost use Rattle.ots_gateway.specs.Ways.{leaves};
ghost use Rattle.ots_gateway.specs.declared.served.GateServed.{GateServed};
ghost use Rattle.ots_gateway.specs.declared.served.GateServed.TheVariants.{Stamped, Replied};
ghost use Rattle.ots_gateway.specs.declared.waiting.Waiting.{Waiting};

use ots_outside::Dialer;

/// The trees that stay good are those that are taken of the good ones, in their order.
pub fn good_trees_are_taken()
    ensures { (way : ℕ) (outcomes : List Outcome) → good_trees (taking way outcomes) ≡ taken way (good_trees outcomes) }
{}

/// A reply with a way of at most so many bytes, the trees that are taken, and one byte between each
/// two of them, has at most `MAX_REPLY_BODY` bytes; one more is counted here, after the last tree.
pub fn taken_trees_fit()
    ensures { (way : ℕ) (trees : List (List Token)) → way ≤ MAX_REPLY_BODY
        → way + sizes (taken way trees) ≤ MAX_REPLY_BODY + 1 }
{}

/// Where what calendars answered is sound below a message of n bytes and k operations, so is what is
/// left when trees were taken, and each tree that is taken.
pub fn taken_trees_are_sound()
    ensures outcomes { (n k way : ℕ) (answered : List Outcome) → AreSound n k answered
        → AreSound n k (taking way answered) }
    ensures trees { (n k way : ℕ) (answered : List Outcome) → AreSound n k answered
        → AllByRecursion (IsSoundPre n k) (good_trees (taking way answered)) }
{}

/// What a round gives to its digests is determined by their leaves, by what came of asking the
/// calendars, and by how many trees are to be taken.
pub fn one_round<T: Dialer>()
    ensures { (calendars others : List AddressParts) (least : ℕ) (leaves : List (List ℕ)) (old new before now : T)
        (outcomes : List Outcome) (a b : Given)
        → Asks T.told T.faults calendars least leaves old new outcomes a
        → Asks T.told T.faults others least leaves before now outcomes b → a ≡ b }
{}

/// The way of each digest of a round leads from it to the root over all of them. A digest has at most
/// 64 bytes and a nonce 16.
pub fn ways_lead_to_the_root()
    ensures { (waiting : List Waiting) (i : ℕ) (w : Waiting) → slice_get waiting i ≡ Some w → length w.digest ≤ 64
        → length w.nonce ≡ 16
        → value (way_from (leaves waiting) i w.nonce) w.digest ≡ Some (root (leaves waiting)) }
{}

/// Each path of a reply's tree is the link's own way and then a path of a tree that is taken; and so
/// comes each path of each tree that is taken, once for each place where it stands, in their order.
pub fn stamped_paths()
    ensures { (nodes : List Node) (node : Node) (over : List (List ℕ)) (i : ℕ) (nonce : List ℕ) → AreJoined nodes node
        → (t : Node) × (pre t ≡ tree_from over node i nonce)
        × (paths t ≡ map (after (way_from over i nonce)) (flat_map paths nodes)) }
{}

/// The tree of each digest of a round fits a reply, with any nonce of 16 bytes: it has at most
/// `MAX_REPLY_BODY` bytes, the most that a client takes.
pub fn replies_fit<T: Dialer>()
    ensures { (calendars : List AddressParts) (least : ℕ) (leaves over : List (List ℕ)) (old new : T)
        (outcomes : List Outcome) (node : Node)
        → Asks T.told T.faults calendars least leaves old new outcomes (below over node)
        → (i : ℕ) (nonce : List ℕ) → i < length over → length nonce ≡ 16
        → size (tree_from over node i nonce) ≤ MAX_REPLY_BODY }
{}

/// A digest that waits is answered, unless its link counts a fault or its count stands at its last value,
/// 2^64 - 1: where enough trees are taken it is timestamped, and its link took the whole reply with its
/// tree; else its link took the whole reply 503 `upstream`.
pub fn passing_digests_are_stamped()
    ensures stamped { (over : List (List ℕ)) (node : Node) (i : ℕ) (w : Waiting) (old new : LinkSeen)
        (served : GateServed) → Serves (below over node) i (digest w) old new served → ¬ Rose old.faults new.faults
        → (served ≡ Stamped (tree_from over node i w.nonce))
        × Takes (reply_bytes (reply.Tree (tree_from over node i w.nonce))) old new }
    ensures refused { (i : ℕ) (w : Waiting) (old new : LinkSeen) (served : GateServed)
        → Serves too_few i (digest w) old new served → ¬ Rose old.faults new.faults
        → (served ≡ Replied 503) × Takes (reply_bytes (in_words Upstream)) old new }
{}
