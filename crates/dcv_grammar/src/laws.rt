//! Laws of verdicts.
ghost use Rattle.std.specs.Prelude.{◌≡◌, ℕ, List, Option};
ghost use Rattle.dcv_grammar.specs.Grammar.{ContextFree, IsVerdict};
ghost use Rattle.dcv_grammar.specs.Predictive.{IsPredictive};

/// With a predictive grammar each list has a verdict, and with any grammar no second one.
pub fn one_verdict()
    ensures some { (grammar : ContextFree) → IsPredictive grammar → (classes : List ℕ) →
        (verdict : Option ℕ) × IsVerdict grammar classes verdict }
    ensures only { (grammar : ContextFree) (classes : List ℕ) (verdict other : Option ℕ) →
        IsVerdict grammar classes verdict → IsVerdict grammar classes other → verdict ≡ other }
{}
