//! What the canonical trees of sets declare, and that the rules on sets find no fault in it.

ghost use Rattle.std.specs.Prelude.{ℕ, List, [], map};
ghost use Rattle.std.specs.List.{AllByRecursion};
ghost use Rattle.dt_base.specs.names.Grammar.{dtmi_text};
ghost use Rattle.json_tree.specs.Grammar.{Spells};
ghost use Rattle.dtdl_terms.specs.Distinct.{AreDistinct, HasDeclaration};
ghost use Rattle.dtdl_terms.specs.Equality.{DeclareTheSame, SameElements};
ghost use Rattle.dtdl_terms.specs.declared.interface.Interface.{Interface};
ghost use Rattle.dtdl_terms.specs.declared.uploaded.Uploaded.{Uploaded};
ghost use Rattle.model_read.specs.Uploads.{AreUploaded};
ghost use Rattle.extend_resolve.specs.Breaches.{IsSound};
ghost use Rattle.canon_text.specs.Canonical.{set_value};
ghost use Rattle.local_rules.specs.Soundness.{IsSoundlyDeclared};

/// Two sets that declare the same, in whatever order, are judged the same by the rules on sets: where the interfaces of
/// each have declarations and identifiers of their own, the second breaks no rule if the first breaks none.
pub fn judged_alike()
    ensures { (us vs : List Uploaded) → SameElements DeclareTheSame (map (λ u. u.interface) us) (map (λ v. v.interface) vs)
        → AllByRecursion HasDeclaration (map (λ u. u.interface) us) → AllByRecursion HasDeclaration (map (λ v. v.interface) vs)
        → AreDistinct (map (λ i. dtmi_text i.id) (map (λ u. u.interface) us)) → AreDistinct (map (λ i. dtmi_text i.id) (map (λ v. v.interface) vs))
        → IsSound [] us → IsSound [] vs }
{}

/// What the canonical tree of a set declares, read as a document, declares the same as the set; its interfaces have
/// declarations, and identifiers of their own where those of the set do.
pub fn declared_alike()
    ensures same { (is : List Interface) (nth : ℕ) (us : List Uploaded) → AllByRecursion IsSoundlyDeclared is → AreUploaded (set_value is) nth us
        → SameElements DeclareTheSame is (map (λ u. u.interface) us) }
    ensures declarations { (bytes : List ℕ) (is : List Interface) (nth : ℕ) (us : List Uploaded) → AllByRecursion IsSoundlyDeclared is → Spells bytes (set_value is)
        → AreUploaded (set_value is) nth us → AllByRecursion HasDeclaration (map (λ u. u.interface) us) }
    ensures apart { (is : List Interface) (nth : ℕ) (us : List Uploaded) → AllByRecursion IsSoundlyDeclared is → AreUploaded (set_value is) nth us
        → AreDistinct (map (λ i. dtmi_text i.id) is) → AreDistinct (map (λ i. dtmi_text i.id) (map (λ u. u.interface) us)) }
{}
