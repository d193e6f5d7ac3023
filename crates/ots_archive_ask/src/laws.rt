//! Laws of what proofs want in all.
ghost use Rattle.std.specs.Prelude.{◌≡◌, ℕ, List, Bool, map};
ghost use Rattle.ots_archive_ask.specs.Sheet.{AreOnce, AreTooMany};
ghost use Rattle.ots_archive_ask.specs.Total.{IsTotal, Total, Tried};
ghost use Rattle.ots_sheet.specs.Request.{RequestParts, request_line};
ghost use Rattle.ots_sheet.specs.Sheet.{FitsSheet};

/// Proofs want one thing in all.
pub fn one_total()
    ensures { (urls : List (List ℕ)) (all : Bool) (tried : List Tried) (first second : Total)
        → IsTotal urls all tried first → IsTotal urls all tried second → first ≡ second }
{}

/// What proofs want has one sheet: a list has its requests once in one order. Where some of them are more than a sheet
/// holds, so are all.
pub fn one_sheet()
    ensures sheet { (wanted first second : List RequestParts) → AreOnce wanted first → AreOnce wanted second
        → first ≡ second }
    ensures never_both { (wanted requests : List RequestParts) → AreTooMany wanted → AreOnce wanted requests
        → FitsSheet (map request_line requests) → ⊥ }
{}
