//! What is said of breaches.

ghost use Rattle.std.specs.Prelude.{◌≡◌, ◌⊎◌, ℕ, List};
ghost use Rattle.dt_base.specs.Existence.{IsThere};
ghost use Rattle.json_tree.specs.Values.{Json};
ghost use Rattle.local_rules.specs.Breaches.{BreaksNoLocalRule, IsFirstBreach};
ghost use Rattle.local_rules.specs.declared.rule.LocalRule.{LocalRule};

/// A document has at most one first breach.
pub fn one_first_breach()
    ensures { (document : Json) (place other : List ℕ) (broken another : LocalRule) → IsFirstBreach document place broken
        → IsFirstBreach document other another → (place ≡ other) × (broken ≡ another) }
{}

/// A document breaks no local rule at any place, or has a first breach.
pub fn breach_or_none()
    ensures { (document : Json) → IsThere (BreaksNoLocalRule document
        ⊎ ((place : List ℕ) × (broken : LocalRule) × IsFirstBreach document place broken)) }
{}
