//! The law of sets of requests.
ghost use Rattle.std.specs.Prelude.{◌≡◌, ◌↔◌, List};
ghost use Rattle.ots_sheet.specs.Request.{RequestParts};
ghost use Rattle.ots_sheet.specs.Sheet.{AreInOrder};
ghost use Rattle.ots_request_set.specs.RequestSet.{Has};

/// Two lists in order that have the same requests are equal. So what a set has is determined by what
/// was added, in whatever order and however often.
pub fn one_set()
    ensures { (first second : List RequestParts) → AreInOrder first → AreInOrder second
        → ((r : RequestParts) → Has first r ↔ Has second r) → first ≡ second }
{}
