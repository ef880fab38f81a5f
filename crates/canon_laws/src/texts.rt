//! What the canonical text of a set of interfaces spells.

ghost use Rattle.std.specs.Prelude.{◌≡◌, ◌↔◌, ℕ, List, map};
ghost use Rattle.std.specs.List.{AllByRecursion};
ghost use Rattle.json_tree.specs.Values.{Json};
ghost use Rattle.json_tree.specs.Grammar.{Spells};
ghost use Rattle.json_tree.specs.Printing.{NestsWithin};
ghost use Rattle.dtdl_terms.specs.Distinct.{AreDistinct};
ghost use Rattle.dtdl_terms.specs.Equality.{DeclareTheSame, SameElements};
ghost use Rattle.dtdl_terms.specs.declared.interface.Interface.{Interface};
ghost use Rattle.dtdl_terms.specs.declared.uploaded.Uploaded.{Uploaded};
ghost use Rattle.local_rules.specs.Limits.{IsWithinLimits};
ghost use Rattle.local_rules.specs.Soundness.{IsSoundInterface};
ghost use Rattle.local_rules.specs.Typed.{IsTyped};
ghost use Rattle.model_read.specs.Uploads.{AreUploaded};
ghost use Rattle.canon_text.specs.Canonical.{interface_text, set_value, set_text};

use json_read::one_value;

/// The canonical tree of a set within the limits nests no deeper than a JSON text may.
pub fn nest()
    ensures { (is : List Interface) → AllByRecursion IsTyped is → AllByRecursion IsWithinLimits is → NestsWithin 64 (set_value is) }
{}

/// The canonical text of a set of sound interfaces spells its canonical tree.
pub fn reads_back()
    ensures { (is : List Interface) → AllByRecursion IsSoundInterface is
        → Spells (set_text is) (set_value is) }
{}

/// Two sound interfaces have one canonical text exactly where they declare the same.
pub fn one_text()
    ensures { (i j : Interface) → IsSoundInterface i → IsSoundInterface j
        → (interface_text i ≡ interface_text j) ↔ DeclareTheSame i j }
{
    one_value();
}

/// Two sets of sound interfaces, each of distinct identifiers, have one canonical text exactly where they declare the
/// same.
pub fn one_set_text()
    ensures { (is js : List Interface)
        → AllByRecursion IsSoundInterface is → AllByRecursion IsSoundInterface js
        → AreDistinct (map (λ i. i.id) is) → AreDistinct (map (λ j. j.id) js)
        → (set_text is ≡ set_text js) ↔ SameElements DeclareTheSame is js }
{
    one_value();
}

/// Canonical bytes print themselves: whatever the canonical text of a set of sound interfaces declares, read as a
/// document, has these bytes as its canonical text.
pub fn same_bytes()
    ensures { (is : List Interface) → AllByRecursion IsSoundInterface is
        → (v : Json) (nth : ℕ) (us : List Uploaded) → Spells (set_text is) v → AreUploaded v nth us
        → set_text (map (λ u. u.interface) us) ≡ set_text is }
{
    one_value();
}
