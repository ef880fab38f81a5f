//! What is said of breaches.

ghost use Rattle.std.specs.Prelude.{◌≡◌, ℕ, List};
ghost use Rattle.json_tree.specs.Values.{Json};
ghost use Rattle.dtdl_terms.specs.declared.resolved.Resolved.{Resolved};
ghost use Rattle.twin_value.specs.Breaches.{IsBodyBreach, IsFirstBodyBreach, IsLinkBreach};
ghost use Rattle.twin_value.specs.Roles.{Role};
ghost use Rattle.twin_value.specs.declared.code.BodyCode.{BodyCode};

/// A value in a role has at most one first breach: so have a value of a schema, and the body of a twin.
pub fn one_first_breach()
    ensures { (role : Role) (v : Json) (place other : List ℕ) (broken another : BodyCode) → IsFirstBodyBreach (IsBodyBreach role v) place broken
        → IsFirstBodyBreach (IsBodyBreach role v) other another → (place ≡ other) × (broken ≡ another) }
{}

/// The body of a relationship has at most one first breach.
pub fn one_first_link_breach()
    ensures { (r : Resolved) (v : Json) (place other : List ℕ) (broken another : BodyCode) → IsFirstBodyBreach (IsLinkBreach r v) place broken
        → IsFirstBodyBreach (IsLinkBreach r v) other another → (place ≡ other) × (broken ≡ another) }
{}
