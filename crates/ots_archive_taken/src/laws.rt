//! Laws of what is taken.
ghost use Rattle.std.specs.Prelude.{◌≡◌, ◌↔◌, ◌≤◌, ℕ, Bool, List, length};
ghost use Rattle.std.specs.List.{AllByRecursion};
ghost use Rattle.ots_archive_taken.specs.As.{IsDraftAmong, IsProofWith};
ghost use Rattle.ots_archive_taken.specs.Given.{AreTreesFor};
ghost use Rattle.ots_archive_taken.specs.Taken.{AreStamps, IsComplete, IsDraftPair, IsTakenBy, IsTooBig, IsUpgradeBy};
ghost use Rattle.ots_archive_taken.specs.declared.taking.Taken.{Taken};
ghost use Rattle.ots_archive_taken.specs.declared.taking.Taken.TheVariants.{Stamped};
ghost use Rattle.ots_canon.specs.Canonical.{IsCanonOf};
ghost use Rattle.ots_canon.specs.Join.{HaveSamePaths};
ghost use Rattle.ots_draft.specs.Draft.{IsDraft};
ghost use Rattle.ots_merkle.specs.CalendarTree.{root};
ghost use Rattle.ots_ops.specs.declared.op.Op.{Op};
ghost use Rattle.ots_pending.specs.Pairs.{ArePairs, PairAt};
ghost use Rattle.ots_sheet.specs.Reply.{Answer};
ghost use Rattle.ots_sheet.specs.Sheet.{AreAnswers};
ghost use Rattle.ots_sheet.specs.declared.request.Kind.TheVariants.{Get};
ghost use Rattle.ots_stamp.specs.Stamped.{IsStampOf, leaves};
ghost use Rattle.ots_stamp.specs.declared.target.Target.{Target};
ghost use Rattle.ots_tree.specs.declared.detached.Detached.{Detached};
ghost use Rattle.ots_tree.specs.declared.token.Token.{Token};
ghost use Rattle.ots_upgrade.specs.Upgrading.{trees_of};
ghost use Rattle.ots_upgrade.specs.declared.asking.AskedAt.{AskedAt};

/// The replies of a sheet make one thing of a proof. So `taken_by` answers each case exactly where it should,
/// want of memory aside.
pub fn one_taken()
    ensures { (answers : List Answer) (proof : Detached) (least : ℕ) (first second : Taken) → AreAnswers answers
        → IsTakenBy answers proof least first → IsTakenBy answers proof least second → first ≡ second }
{}

/// What a draft asks for its pairs: its one message, of 32 bytes, is posted to each address for which a path
/// waits, and the draft's operations are before it.
pub fn draft_pairs()
    ensures { (proof : Detached) (ops : List Op) (pairs : List PairAt) → IsDraft proof ops → ArePairs proof pairs
        → AllByRecursion (IsDraftPair proof ops) pairs }
{}

/// What replies make of a proof is what completing it makes where calendars answer for its pairs exactly the
/// trees that the sheet gives, whatever came of asking for the other pairs.
pub fn taken_as_completed()
    ensures { (answers : List Answer) (proof made : Detached) (pairs : List PairAt) (asked : List AskedAt)
        → AreAnswers answers → ArePairs proof pairs → AreTreesFor answers Get pairs (trees_of asked)
        → IsUpgradeBy answers proof made ↔ IsProofWith proof pairs (trees_of asked) made }
{}

/// What replies make of a proof has no path more exactly where its tree is the proof's own canonical form.
pub fn no_path_more()
    ensures { (answers : List Answer) (proof made : Detached) → IsUpgradeBy answers proof made
        → HaveSamePaths proof.tree made.tree ↔ IsCanonOf proof.tree made.tree }
{}

/// What replies make of the draft of one of some files is what stamping makes of these files where calendars
/// answer the trees that the sheet gives, at least as many as are wanted. They are asked for the same message,
/// the root over all the files.
pub fn taken_as_stamped()
    ensures asks { (targets : List Target) (i : ℕ) (t : Target) (addresses : List (List ℕ)) (proof : Detached)
        (pairs : List PairAt) → IsDraftAmong targets i t addresses proof → ArePairs proof pairs
        → AllByRecursion (λ p. p.pair.message ≡ root (leaves targets)) pairs }
    ensures made { (answers : List Answer) (targets : List Target) (i : ℕ) (t : Target) (addresses : List (List ℕ))
        (proof made : Detached) (least : ℕ) (complete : Bool) → IsDraftAmong targets i t addresses proof
        → IsTakenBy answers proof least (Stamped made complete)
        → (trees : List (List Token)) × AreStamps answers proof trees × (least ≤ length trees)
        × IsStampOf targets i t trees made }
    ensures makes { (answers : List Answer) (targets : List Target) (i : ℕ) (t : Target) (addresses : List (List ℕ))
        (proof made : Detached) (least : ℕ) (complete : Bool) (trees : List (List Token))
        → IsDraftAmong targets i t addresses proof → AreStamps answers proof trees → least ≤ length trees
        → IsStampOf targets i t trees made → (IsTooBig made → ⊥) → IsComplete complete made
        → IsTakenBy answers proof least (Stamped made complete) }
{}
