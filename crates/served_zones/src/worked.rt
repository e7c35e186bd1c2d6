//! Worked examples: what the definitions say of texts that were written out by hand.
//!
//! The functions do nothing. Their contracts are the examples, and hold by the definitions.

ghost use Rattle.std.specs.Prelude.{◌∷◌, [], ℕ, List, codes};
ghost use Rattle.update_policy.specs.RuleTexts.{IsScope};
ghost use Rattle.update_policy.specs.declared.policy.Scope.TheVariants.{OwnName, Zone};

/// Which scope the words of a rule have after the name of its key: `self` is never the whole zone, and a type without a
/// scope is.
pub fn worked_scopes()
    ensures own { IsScope (codes "self" ∷ codes "ANY" ∷ []) OwnName (codes "ANY" ∷ []) }
    ensures only_own { (types : List (List ℕ)) → ¬ (IsScope (codes "self" ∷ codes "ANY" ∷ []) Zone types) }
    ensures whole { IsScope (codes "TXT" ∷ []) Zone (codes "TXT" ∷ []) }
{}
