//! A reply has one outcome, and so has a body.
ghost use Rattle.std.specs.Prelude.{◌≡◌, ◌≢◌, ℕ, List};
ghost use Rattle.ots_asking.specs.declared.outcome.Outcome.{Outcome};
ghost use Rattle.ots_asking.specs.declared.outcome.Outcome.TheVariants.{Unreachable};
ghost use Rattle.ots_asking.specs.Outcome.{IsOutcomeOf, IsOutcomeOfBody};
ghost use Rattle.ots_reader.specs.OneAnswer.{IsShape};

/// A reply has one outcome below a message of n bytes and k operations, a failed conversation aside.
pub fn one_outcome()
    ensures { (n k : ℕ) (reply : List ℕ) (a b : Outcome) → IsShape n k → IsOutcomeOf n k reply a
        → IsOutcomeOf n k reply b
        → a ≢ Unreachable → b ≢ Unreachable → a ≡ b }
{}

/// A body has one outcome below a message of n bytes and k operations.
pub fn one_outcome_of_body()
    ensures { (n k : ℕ) (body : List ℕ) (a b : Outcome) → IsShape n k → IsOutcomeOfBody n k body a
        → IsOutcomeOfBody n k body b → a ≡ b }
{}
