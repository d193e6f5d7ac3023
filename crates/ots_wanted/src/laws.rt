//! Laws of what proofs want.
ghost use Rattle.std.specs.Prelude.{◌≡◌, ◌≤◌, ℕ, List, Bool, map};
ghost use Rattle.ots_base.specs.declared.limits.TheConstants.{MAX_PROOF_FILE};
ghost use Rattle.ots_detached.specs.File.{IsFileOf};
ghost use Rattle.ots_wanted.specs.Wanted.{Wants};
ghost use Rattle.ots_request_set.specs.RequestSet.{Has};
ghost use Rattle.ots_sheet.specs.Request.{RequestParts, request_line};
ghost use Rattle.ots_sheet.specs.Sheet.{AreInOrder, FitsSheet};
ghost use Rattle.ots_tree.specs.declared.detached.Detached.{Detached};

/// A proof wants one list of requests, and skips one number of pairs.
pub fn one_wanted()
    ensures { (urls : List (List ℕ)) (all : Bool) (proof : Detached) (first second : List RequestParts) (few many : ℕ)
        → Wants urls all proof first few → Wants urls all proof second many → (first ≡ second) × (few ≡ many) }
{}

/// A proof that was read skips no more pairs than a proof file may have bytes.
pub fn few_skipped()
    ensures { (urls : List (List ℕ)) (all : Bool) (proof : Detached) (wanted : List RequestParts) (skipped : ℕ)
        (bytes : List ℕ) → Wants urls all proof wanted skipped → IsFileOf bytes proof → skipped ≤ MAX_PROOF_FILE }
{}

/// Where the sheet of some requests is within the limits, so is that of fewer. So where a set that has some of the
/// wanted requests is past the limits, the sheet of all that is wanted is past them too.
pub fn fewer_fit()
    ensures { (first second : List RequestParts) → AreInOrder first → AreInOrder second
        → ((r : RequestParts) → Has first r → Has second r) → FitsSheet (map request_line second)
        → FitsSheet (map request_line first) }
{}
