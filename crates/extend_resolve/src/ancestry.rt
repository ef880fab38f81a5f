//! Ancestors of an interface of a set that breaks no rule.

ghost use Rattle.std.specs.Prelude.{◌≡◌, ◌↔◌, Some, IsSome, IsTrue};
ghost use Rattle.std.specs.Option.{option_copied};
ghost use Rattle.dt_base.specs.names.Grammar.{dtmi_text};
ghost use Rattle.dtdl_terms.specs.Sets.{interface_at};
ghost use Rattle.dtdl_terms.specs.declared.interface.Interface.{Interface};
ghost use Rattle.extend_resolve.specs.Chains.{IsAncestor};
ghost use Rattle.extend_resolve.specs.Breaches.{BreaksNoRule};
ghost use Rattle.extend_resolve.specs.Machinery.Within.{interface_passes, reaches_within, any_within};

use dt_base::names::Dtmi;
use dtdl_terms::{Interface, ModelSet};

/// The most steps of a chain of extension in a set that breaks no rule (this project's own).
pub const MOST_STEPS: u32 = 10;

/// Whether an interface of a set that breaks no rule has an ancestor with an identifier (DTDL v2, "Interface", the
/// property `extends`); it is its own ancestor. Takes no memory.
pub fn is_a(set: &ModelSet, id: &Dtmi, ancestor: &Dtmi) -> bool
    requires sound { BreaksNoRule set.now }
    requires there { IsSome (interface_at id.now set.now) }
    ensures { IsTrue result ↔ ((i a : Interface) × (interface_at id.now set.now ≡ Some i) × IsAncestor set.now i a × (dtmi_text a.id ≡ dtmi_text ancestor.now)) }
{
    match set.get(id) {
        Some(interface) => reaches(set, interface, ancestor, MOST_STEPS),
        None => false,
    }
}

/// Whether a chain of so many steps at most reaches an identifier.
#[cycle(reaching)]
fn reaches(set: &ModelSet, interface: &Interface, ancestor: &Dtmi, steps: u32) -> bool
    ensures { result ≡ reaches_within set.now ancestor.now steps interface.now }
{
    if interface.id == *ancestor {
        return true;
    }
    if steps == 0 {
        return false;
    }
    any_reaches(set, interface.parents.as_slice(), ancestor, steps - 1)
}

/// Whether one does from an interface of these identifiers.
#[cycle(reaching)]
fn any_reaches(set: &ModelSet, ids: &[Dtmi], ancestor: &Dtmi, steps: u32) -> bool
    ensures { result ≡ any_within set.now ancestor.now steps ids.now }
{
    'ids: for id in ids {
        if found_reaches(set, set.get(id), ancestor, steps) {
            return true;
        }
    }
    false
}

/// Whether one does from the interface, where there is one.
#[cycle(reaching)]
fn found_reaches(set: &ModelSet, interface: Option<&Interface>, ancestor: &Dtmi, steps: u32) -> bool
    ensures { result ≡ interface_passes (reaches_within set.now ancestor.now steps) (option_copied interface.entry) }
{
    match interface {
        Some(interface) => reaches(set, interface, ancestor, steps),
        None => false,
    }
}
