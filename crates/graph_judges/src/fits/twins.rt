//! One twin, judged by its model.

ghost use Rattle.std.specs.Prelude.{◌≡◌, ◌↔◌, IfOk, IsTrue, Some};
ghost use Rattle.model_life.specs.resolution.Resolving.{HoldsRight};
ghost use Rattle.graph_steps.specs.bodies.Kept.{twin_view, IsKeptTwin};
ghost use Rattle.graph_steps.specs.States.{interface_of, set_of};
ghost use Rattle.graph_steps.specs.Typed.{FitsModel};
ghost use Rattle.graph_steps.specs.held.Held.{state_of};

use crate::fits::names::have_same_names;
use crate::fits::refused::refused;
use dt_base::OutOfMemory;
use dtdl_terms::Interface;
use graph_steps::bodies::twin_tree;
use graph_steps::held::{Lent, judged_twin};
use model_life::resolution::Resolutions;
use twin_value::Twin;

/// Whether a twin fits an interface of a model: what is printed of it has no breach, each value is of a property, and each
/// component is of a component. Fails only for want of memory.
pub fn twin_fits(
    lent: &Lent<'_>,
    resolutions: &mut Resolutions,
    interface: &Interface,
    twin: &Twin,
) -> Result<bool, OutOfMemory>
    requires there { interface_of (state_of lent.now) interface.now.id ≡ Some interface.now }
    requires kept { IsKeptTwin (twin_view twin.now) }
    requires right { HoldsRight (set_of (state_of lent.now)) resolutions.old }
    ensures right { HoldsRight (set_of (state_of lent.now)) resolutions.new }
    ensures fits { IfOk result (λ fits. IsTrue fits ↔ FitsModel (set_of (state_of lent.now)) interface.now (twin_view twin.now)) }
{
    let tree = twin_tree(lent.alloc(), twin)?;
    let judged = judged_twin(lent, resolutions, &twin.id, interface, &tree);
    drop(tree);
    match judged {
        Ok(read) => {
            let same = have_same_names(&read, twin);
            drop(read);
            Ok(same)
        }
        Err(failure) => {
            refused(failure)?;
            Ok(false)
        }
    }
}
