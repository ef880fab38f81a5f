//! Ancestors of models.

ghost use Rattle.std.specs.Prelude.{◌≡◌, Some};
ghost use Rattle.dtdl_terms.specs.Sets.{interface_at};
ghost use Rattle.extend_resolve.specs.Breaches.{BreaksNoRule};
ghost use Rattle.graph_steps.specs.Inherited.{is_a};

use dt_base::names::Dtmi;
use dtdl_terms::{Interface, ModelSet};

/// Whether an interface of a set that breaks no rule is, or extends, the one with this identifier. Takes no memory.
pub fn is_model_a(set: &ModelSet, interface: &Interface, id: &Dtmi) -> bool
    requires rules { BreaksNoRule set.now }
    requires there { interface_at interface.now.id set.now ≡ Some interface.now }
    ensures { result ≡ is_a set.now interface.now id.now }
{
    extend_resolve::is_a(set, &interface.id, id)
}
