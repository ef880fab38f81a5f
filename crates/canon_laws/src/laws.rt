//! What the canonical tree of a set of interfaces declares.

ghost use Rattle.std.specs.Prelude.{◌≡◌, ℕ, List, map};
ghost use Rattle.std.specs.List.{AllByRecursion};
ghost use Rattle.json_tree.specs.Values.{Json};
ghost use Rattle.dtdl_terms.specs.Equality.{SameElements, DeclareTheSame};
ghost use Rattle.dtdl_terms.specs.declared.interface.Interface.{Interface};
ghost use Rattle.dtdl_terms.specs.declared.uploaded.Uploaded.{Uploaded};
ghost use Rattle.model_read.specs.Uploads.{AreUploaded};
ghost use Rattle.canon_text.specs.Canonical.{set_value, set_text};
ghost use Rattle.canon_text.specs.Identified.{InterfaceIsIdentified};
ghost use Rattle.local_rules.specs.Typed.{IsTyped};

use canon_text::{each_identified, identified};
use dtdl_terms::{Interface, Uploaded};

/// The types of what a document declares are told by its canonical tree.
#[tactic(auto, using(crate::proofs::Documents::all_typed))]
pub fn have_types()
    ensures { (whole : Json) (nth : ℕ) (us : List Uploaded) → AreUploaded whole nth us → AllByRecursion (λ u. IsTyped u.interface) us }
{}

/// Whatever the canonical tree of a set declares, read as a document, has this canonical tree and text again.
pub fn prints_itself()
    ensures tree { (is : List Interface) (nth : ℕ) (us : List Uploaded) → AllByRecursion IsTyped is → AreUploaded (set_value is) nth us
        → set_value (map (λ u. u.interface) us) ≡ set_value is }
    ensures text { (is : List Interface) (nth : ℕ) (us : List Uploaded) → AllByRecursion IsTyped is → AreUploaded (set_value is) nth us
        → set_text (map (λ u. u.interface) us) ≡ set_text is }
{}

fn of_uploads(uploads: &[Uploaded])
    ensures { AllByRecursion (λ u. InterfaceIsIdentified u.interface) uploads.now }
{
    for upload in uploads {
        identified(&upload.interface);
    }
}

/// What the canonical tree of a set declares, read as a document, declares the same as the set. The call walks over both,
/// and takes no memory.
pub fn declares_the_same(interfaces: &[Interface], uploads: &[Uploaded])
    ensures { (nth : ℕ) → AllByRecursion IsTyped interfaces.now → AreUploaded (set_value interfaces.now) nth uploads.now
        → SameElements DeclareTheSame interfaces.now (map (λ u. u.interface) uploads.now) }
{
    each_identified(interfaces);
    of_uploads(uploads);
}
