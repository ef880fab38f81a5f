//! What a document declares.

ghost use Rattle.std.specs.Prelude.{◌≡◌, ℕ, List};
ghost use Rattle.std.specs.List.{AllByRecursion};
ghost use Rattle.dt_base.specs.Existence.{IsThere};
ghost use Rattle.json_tree.specs.Values.{HasDistinctKeys, Json};
ghost use Rattle.dtdl_terms.specs.Distinct.{HasDeclaration};
ghost use Rattle.dtdl_terms.specs.declared.uploaded.Uploaded.{Uploaded};
ghost use Rattle.local_rules.specs.Breaches.{BreaksNoLocalRule};
ghost use Rattle.local_rules.specs.Limits.{IsWithinLimits};
ghost use Rattle.model_read.specs.Uploads.{AreUploaded};

/// A document declares at most one list of interfaces.
pub fn one_declaration()
    ensures { (whole : Json) (nth : ℕ) (us vs : List Uploaded) → AreUploaded whole nth us → AreUploaded whole nth vs → us ≡ vs }
{}

/// What a document without breach declares is there: it is refuted that it declares no list of interfaces.
pub fn declaration_is_there()
    ensures { (whole : Json) (nth : ℕ) → BreaksNoLocalRule whole
        → IsThere ((us : List Uploaded) × AreUploaded whole nth us) }
{}

/// What a document without breach declares is within the limits.
pub fn within_limits()
    ensures { (whole : Json) (nth : ℕ) (us : List Uploaded) → BreaksNoLocalRule whole → AreUploaded whole nth us → AllByRecursion (λ u. IsWithinLimits u.interface) us }
{}

/// What a document without breach declares has a declaration, where no object in the document has two members of one
/// key, as in each document that was read from a text.
pub fn have_declarations()
    ensures { (whole : Json) (nth : ℕ) (us : List Uploaded) → HasDistinctKeys whole → BreaksNoLocalRule whole → AreUploaded whole nth us → AllByRecursion (λ u. HasDeclaration u.interface) us }
{}
