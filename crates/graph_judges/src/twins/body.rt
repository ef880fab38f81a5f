//! Twins that come with a body, whether they are put or patched.

ghost use Rattle.std.specs.Prelude.{◌≡◌, Some, IfOk, IfSome, MatchResult};
ghost use Rattle.std.specs.Option.{option_copied, option_map};
ghost use Rattle.dt_base.specs.names.Grammar.{dtmi_text};
ghost use Rattle.graph_steps.specs.bodies.Bodies.{FailsBy};
ghost use Rattle.graph_steps.specs.bodies.Kept.{twin_view, IsKeptTwin};
ghost use Rattle.graph_steps.specs.held.Held.{state_of, twin_of, IsHeldTwin};
ghost use Rattle.graph_steps.specs.Refusals.{or_refuse};
ghost use Rattle.graph_steps.specs.States.{interface_of, set_of, twin_at, with_twin};
ghost use Rattle.graph_steps.specs.TwinAsks.{DoesNotFit, RefusesBody, TwinFull, twin_for, with_body};
ghost use Rattle.graph_steps.specs.Typed.{WellTyped};
ghost use Rattle.json_tree.specs.Values.{HasDistinctKeys};
ghost use Rattle.json_tree.specs.View.{view};
ghost use Rattle.model_life.specs.resolution.Resolving.{HoldsRight};
ghost use Rattle.graph_steps.specs.held.Judged.{Unrefused};

use crate::twins::fitting::unless_unfit;
use crate::twins::limits::within_limits;
use crate::twins::marks::unless_marked;
use crate::twins::new_twin::NewTwin;
use crate::twins::refusals::model_not_found;
use dt_base::Text;
use dt_base::names::Dtmi;
use dtdl_terms::Interface;
use graph_steps::bodies::BodyFailure;
use graph_steps::held::{Lent, judged_twin};
use graph_steps::twins::Held;
use json_tree::Tree;
use model_life::resolution::Resolutions;
use twin_value::Twin;

/// A twin without breach that comes in the place of the one that there may be, refused where a relationship would not be
/// well typed or a limit would be passed with it. Fails for want of memory too.
fn judged_new(
    lent: &Lent<'_>,
    resolutions: &mut Resolutions,
    there: Option<&Held>,
    twin: Twin,
) -> Result<NewTwin, BodyFailure>
    requires typed { WellTyped (state_of lent.now) }
    requires there { option_map twin_of (option_copied there) ≡ twin_at twin.id (state_of lent.now) }
    requires held { IfSome (option_copied there) IsHeldTwin }
    requires kept { IsKeptTwin (twin_view twin) }
    requires right { HoldsRight (set_of (state_of lent.now)) resolutions.old }
    ensures right { HoldsRight (set_of (state_of lent.now)) resolutions.new }
    ensures judged { MatchResult result
        (λ new. Unrefused (or_refuse (DoesNotFit (with_twin (twin_view twin) (state_of lent.now)) twin.id) (TwinFull (with_twin (twin_view twin) (state_of lent.now)) (twin_view twin))) × (new.twin ≡ twin))
        (FailsBy (or_refuse (DoesNotFit (with_twin (twin_view twin) (state_of lent.now)) twin.id) (TwinFull (with_twin (twin_view twin) (state_of lent.now)) (twin_view twin)))) }
    ensures held { IfOk result (λ new. IsHeldTwin (record { twin = new.twin; bytes = new.bytes })) }
{
    unless_unfit(lent, resolutions, there, &twin)?;
    within_limits(lent, there, twin)
}

/// The twin of an id for which a body of this interface's twins stands, where it may come in the place of the one that there
/// may be. Fails by the first reason why it may not, or for want of memory.
fn judged_of(
    lent: &Lent<'_>,
    resolutions: &mut Resolutions,
    there: Option<&Held>,
    id: &Text,
    interface: &Interface,
    tree: &Tree,
) -> Result<NewTwin, BodyFailure>
    requires typed { WellTyped (state_of lent.now) }
    requires old { option_map twin_of (option_copied there) ≡ twin_at id.now (state_of lent.now) }
    requires held { IfSome (option_copied there) IsHeldTwin }
    requires there { interface_of (state_of lent.now) interface.now.id ≡ Some interface.now }
    requires distinct { HasDistinctKeys (view tree.now) }
    requires right { HoldsRight (set_of (state_of lent.now)) resolutions.old }
    ensures right { HoldsRight (set_of (state_of lent.now)) resolutions.new }
    ensures judged { MatchResult result
        (λ new. Unrefused (RefusesBody (state_of lent.now) id.now (dtmi_text interface.now.id) (view tree.now) (Some interface.now)) × (twin_view new.twin ≡ twin_for (state_of lent.now) id.now interface.now (view tree.now)))
        (FailsBy (RefusesBody (state_of lent.now) id.now (dtmi_text interface.now.id) (view tree.now) (Some interface.now))) }
    ensures held { IfOk result (λ new. IsHeldTwin (record { twin = new.twin; bytes = new.bytes })) }
{
    unless_marked(lent, id, &interface.id)?;
    let twin = judged_twin(lent, resolutions, id, interface, tree)?;
    judged_new(lent, resolutions, there, twin)
}

/// The twin of an id for which a body stands that names this model, where it may come in the place of the one that there may
/// be. Fails by the first reason why it may not, or for want of memory.
pub(crate) fn judged_body(
    lent: &Lent<'_>,
    resolutions: &mut Resolutions,
    there: Option<&Held>,
    id: &Text,
    model: &Dtmi,
    tree: &Tree,
) -> Result<NewTwin, BodyFailure>
    requires typed { WellTyped (state_of lent.now) }
    requires old { option_map twin_of (option_copied there) ≡ twin_at id.now (state_of lent.now) }
    requires held { IfSome (option_copied there) IsHeldTwin }
    requires distinct { HasDistinctKeys (view tree.now) }
    requires right { HoldsRight (set_of (state_of lent.now)) resolutions.old }
    ensures right { HoldsRight (set_of (state_of lent.now)) resolutions.new }
    ensures judged { MatchResult result
        (λ new. Unrefused (RefusesBody (state_of lent.now) id.now (dtmi_text model.now) (view tree.now) (interface_of (state_of lent.now) model.now))
        × (with_twin (twin_view new.twin) (state_of lent.now) ≡ with_body (state_of lent.now) id.now (interface_of (state_of lent.now) model.now) (view tree.now)))
        (FailsBy (RefusesBody (state_of lent.now) id.now (dtmi_text model.now) (view tree.now) (interface_of (state_of lent.now) model.now))) }
    ensures id { IfOk result (λ new. new.twin.id ≡ id.now) }
    ensures held { IfOk result (λ new. IsHeldTwin (record { twin = new.twin; bytes = new.bytes })) }
{
    match lent.interface(model) {
        Some(interface) => judged_of(lent, resolutions, there, id, interface, tree),
        None => {
            let refusal = model_not_found(lent.alloc(), model)?;
            Err(BodyFailure::Refused(refusal))
        }
    }
}
