//! The law of counts.
ghost use Rattle.std.specs.Prelude.{◌≡◌, List};
ghost use Rattle.ots_archive_counts.specs.Counts.{AreCounts, Counted};
ghost use Rattle.ots_sheet.specs.Reply.{Answer};
ghost use Rattle.ots_sheet.specs.Sheet.{AreAnswers};

/// The replies of a sheet have one list of counts.
pub fn one_list_of_counts()
    ensures { (answers : List Answer) (first second : List Counted) → AreAnswers answers
        → AreCounts answers first → AreCounts answers second → first ≡ second }
{}
