//! Laws of samples.
ghost use Rattle.std.specs.Prelude.{◌≡◌, ◌/◌, ℕ};
ghost use Rattle.ots_verdicts.specs.declared.verdicts.Chain.TheVariants.{Bitcoin};
ghost use Rattle.ots_verdicts.specs.declared.verdicts.Verdict.TheVariants.{Yes};
ghost use Rattle.ots_sample.specs.Sample.{IsSample};
ghost use Rattle.ots_sample.specs.declared.headers.TheConstants.{FIRST_TIME};
ghost use Rattle.ots_sample.specs.declared.outcome.Sample.{Sample};

/// So many paths have one sample.
pub fn one_sample()
    ensures { (n : ℕ) (s t : Sample) → IsSample n s → IsSample n t → s ≡ t }
{}

/// The verdict of a sample is a yes, at half the number of paths, rounded down.
pub fn verdict_of_sample()
    ensures { (n : ℕ) (s : Sample) → IsSample n s → s.verdict ≡ Yes Bitcoin (n / 2) FIRST_TIME }
{}
