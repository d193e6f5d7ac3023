ghost use Rattle.std.specs.Prelude.{ℕ, List};
ghost use Rattle.ots_shared.specs.Records.{StartsWith, StandsAt};
ghost use Rattle.ots_store.specs.Records.{Record};

/// A receipt stays good: a commitment that stands at its index among the records that were seen
/// stands there in each book that begins with them, as those that are held later and the closed one.
pub fn receipts_stay()
    ensures { (records seen : List Record) (index : ℕ) (commitment : List ℕ) → StartsWith records seen
        → StandsAt seen index commitment → StandsAt records index commitment }
{}
