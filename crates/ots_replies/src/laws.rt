//! Laws of reply sheets.
ghost use Rattle.std.specs.Prelude.{◌≡◌, ℕ, List};
ghost use Rattle.ots_sheet.specs.Reply.{Answer};
ghost use Rattle.ots_sheet.specs.Sheet.{IsBadSheet};
ghost use Rattle.ots_replies.specs.Replies.{IsSheetOf};

/// A text is the sheet of one list of replies at most, has one first bad line at most, and never both.
/// So `read_replies` answers its replies and `BadSheet` each exactly where it should, want of memory and
/// read faults aside.
pub fn one_answer()
    ensures given { (text : List ℕ) (first second : List Answer) → IsSheetOf text first → IsSheetOf text second
        → first ≡ second }
    ensures refused { (text : List ℕ) (number other : ℕ) → IsBadSheet text number → IsBadSheet text other
        → number ≡ other }
    ensures never_both { (text : List ℕ) (answers : List Answer) (number : ℕ) → IsSheetOf text answers
        → IsBadSheet text number → ⊥ }
{}
