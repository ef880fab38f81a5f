//! Laws of canonical trees and texts.

ghost use Rattle.std.specs.Prelude.{◌≡◌, ◌↔◌, map};
ghost use Rattle.std.specs.List.{AllByRecursion};
ghost use Rattle.dtdl_terms.specs.Distinct.{AreDistinct, HasDeclaration};
ghost use Rattle.dtdl_terms.specs.Equality.{SameElements, DeclareTheSame};
ghost use Rattle.canon_text.specs.Canonical.{interface_value, interface_text, set_value, set_text};

use crate::own_ids::{each_identified, identified};
use dtdl_terms::Interface;

/// Two interfaces with declarations have one canonical tree exactly where they declare the same. The call walks over both,
/// and takes no memory.
pub fn one_tree(one: &Interface, other: &Interface)
    ensures { HasDeclaration one.now → HasDeclaration other.now
        → (interface_value one.now ≡ interface_value other.now) ↔ DeclareTheSame one.now other.now }
{
    identified(one);
    identified(other);
}

/// Two interfaces with declarations that declare the same have one canonical text. The call walks over both, and takes no
/// memory.
pub fn same_text(one: &Interface, other: &Interface)
    ensures { HasDeclaration one.now → HasDeclaration other.now → DeclareTheSame one.now other.now
        → interface_text one.now ≡ interface_text other.now }
{
    one_tree(one, other);
}

/// Two sets of interfaces with declarations, each of distinct identifiers, have one canonical tree exactly where each
/// interface of either declares the same as one of the other. The call walks over both, and takes no memory.
pub fn one_set_tree(one: &[Interface], other: &[Interface])
    ensures { AllByRecursion HasDeclaration one.now → AllByRecursion HasDeclaration other.now
        → AreDistinct (map (λ i. i.id) one.now) → AreDistinct (map (λ i. i.id) other.now)
        → (set_value one.now ≡ set_value other.now) ↔ SameElements DeclareTheSame one.now other.now }
{
    each_identified(one);
    each_identified(other);
}

/// Two such sets that declare the same have one canonical text. The call walks over both, and takes no memory.
pub fn same_set_text(one: &[Interface], other: &[Interface])
    ensures { AllByRecursion HasDeclaration one.now → AllByRecursion HasDeclaration other.now
        → AreDistinct (map (λ i. i.id) one.now) → AreDistinct (map (λ i. i.id) other.now)
        → SameElements DeclareTheSame one.now other.now → set_text one.now ≡ set_text other.now }
{
    one_set_tree(one, other);
}
