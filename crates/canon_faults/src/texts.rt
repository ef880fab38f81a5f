//! The canonical texts of interfaces that documents without breach declare.

ghost use Rattle.std.specs.Prelude.{ℕ, List};
ghost use Rattle.std.specs.List.{AllByRecursion};
ghost use Rattle.dt_base.specs.Existence.{IsThere};
ghost use Rattle.json_tree.specs.Values.{Json};
ghost use Rattle.json_tree.specs.Grammar.{Spells};
ghost use Rattle.dtdl_terms.specs.declared.interface.Interface.{Interface};
ghost use Rattle.dtdl_terms.specs.declared.uploaded.Uploaded.{Uploaded};
ghost use Rattle.local_rules.specs.Breaches.{BreaksNoLocalRule};
ghost use Rattle.local_rules.specs.Soundness.{IsSoundlyDeclared};
ghost use Rattle.model_read.specs.Uploads.{AreUploaded};
ghost use Rattle.canon_text.specs.Canonical.{set_value, set_text};
ghost use Rattle.canon_faults.specs.PrintedAgain.{IsPrintedAgain};

use json_read::one_value;

/// The canonical text of interfaces that documents without breach declare is a JSON text, and whatever it spells breaks
/// no local rule.
pub fn without_faults()
    ensures spelled { (is : List Interface) → AllByRecursion IsSoundlyDeclared is
        → Spells (set_text is) (set_value is) }
    ensures unbroken { (is : List Interface) → AllByRecursion IsSoundlyDeclared is
        → (v : Json) → Spells (set_text is) v → BreaksNoLocalRule v }
{
    one_value();
}

/// Read as a document, the canonical text of such interfaces declares interfaces: some are there (`IsThere`), and
/// whichever it declares are sound, declare the same as what was printed, and have this text again.
pub fn prints_again()
    ensures there { (is : List Interface) (nth : ℕ) → AllByRecursion IsSoundlyDeclared is
        → IsThere ((us : List Uploaded) × IsPrintedAgain is nth us) }
    ensures each { (is : List Interface) (nth : ℕ) (us : List Uploaded) (v : Json)
        → AllByRecursion IsSoundlyDeclared is → Spells (set_text is) v → AreUploaded v nth us
        → IsPrintedAgain is nth us }
{
    one_value();
}
