//! What holds of the canonical trees of interfaces that documents without breach declare.

ghost use Rattle.std.specs.Prelude.{ℕ, List};
ghost use Rattle.std.specs.List.{AllByRecursion};
ghost use Rattle.json_tree.specs.Values.{HasDistinctKeys, Json};
ghost use Rattle.json_tree.specs.Grammar.{Spells};
ghost use Rattle.dtdl_terms.specs.declared.interface.Interface.{Interface};
ghost use Rattle.dtdl_terms.specs.declared.uploaded.Uploaded.{Uploaded};
ghost use Rattle.model_read.specs.Uploads.{AreUploaded};
ghost use Rattle.canon_text.specs.Canonical.{set_value};
ghost use Rattle.local_rules.specs.Normal.{HasNormalNumbers};
ghost use Rattle.local_rules.specs.Breaches.{BreaksNoLocalRule};
ghost use Rattle.local_rules.specs.Soundness.{IsSoundInterface, IsSoundlyDeclared};

/// Read as a document, the canonical tree of interfaces that documents without breach declare breaks no local rule: each
/// of the 34 holds at each of its places.
pub fn break_nothing()
    ensures { (is : List Interface) → AllByRecursion IsSoundlyDeclared is → BreaksNoLocalRule (set_value is) }
{}

/// The numbers of a value that was read from a text are in normal form, and none of its objects has two members of one
/// key.
pub fn numbers_are_normal()
    ensures numbers { (bytes : List ℕ) (v : Json) → Spells bytes v → HasNormalNumbers v }
    ensures keys { (bytes : List ℕ) (v : Json) → Spells bytes v → HasDistinctKeys v }
{}

/// Each interface that a document declares which was read from a text and breaks no local rule is sound: soundly declared, with what
/// follows of that. Such an interface has a declaration, is within the limits, and has types that its canonical tree tells.
pub fn soundly_declared()
    ensures uploads { (bytes : List ℕ) (whole : Json) (nth : ℕ) (us : List Uploaded)
        → Spells bytes whole → BreaksNoLocalRule whole → AreUploaded whole nth us
        → AllByRecursion (λ u. IsSoundInterface u.interface) us }
    ensures sound { (i : Interface) → IsSoundlyDeclared i → IsSoundInterface i }
{}
