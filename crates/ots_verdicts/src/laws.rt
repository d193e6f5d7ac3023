//! Laws of verdicts.
ghost use Rattle.std.specs.Prelude.{◌≡◌, ℕ, List};
ghost use Rattle.std.specs.declared.option.Option.{Option};
ghost use Rattle.ots_tree.specs.declared.detached.Detached.{Detached};
ghost use Rattle.ots_headers.specs.HeaderTable.{Table};
ghost use Rattle.ots_verdicts.specs.declared.verdicts.Verdict.{Verdict};
ghost use Rattle.ots_verdicts.specs.Confirmed.{IsVerdict};

use ots_tree::Detached;

/// A proof has at most one verdict on a target by given tables.
pub fn one_verdict()
    ensures { (proof : Detached) (target : List ℕ) (bitcoin : Table) (litecoin : Option Table) (v w : Verdict)
        → IsVerdict proof target bitcoin litecoin v → IsVerdict proof target bitcoin litecoin w → v ≡ w }
{}

/// A proof has a verdict on any target by any tables.
pub fn some_verdict(proof: &Detached)
    ensures { (target : List ℕ) (bitcoin : Table) (litecoin : Option Table)
        → (v : Verdict) × IsVerdict proof.now target bitcoin litecoin v }
{
    let _ = proof.tree.tokens();
}
