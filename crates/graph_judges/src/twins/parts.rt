//! The ask that patches a component of a twin.

ghost use Rattle.std.specs.Prelude.{◌≡◌, Ok, Some, IfOk, IsSome, MatchResult};
ghost use Rattle.graph_asks.specs.declared.refusal.Refusal.{Refusal};
ghost use Rattle.graph_steps.specs.bodies.Bodies.{FailsBy};
ghost use Rattle.graph_steps.specs.bodies.Kept.{twin_view, IsKeptPart};
ghost use Rattle.graph_steps.specs.held.Held.{state_of, twin_of, IsHeldTwin};
ghost use Rattle.graph_steps.specs.Soundness.{IsReadPatch, IsSoundAsk};
ghost use Rattle.graph_steps.specs.States.{interface_of, part_value, set_of, twin_at, with_twin};
ghost use Rattle.graph_steps.specs.TwinAsks.{RefusesNewPart, RefusesPatchPart, after_patch_part, component_at, with_new_part, with_part};
ghost use Rattle.graph_steps.specs.Typed.{WellTyped};
ghost use Rattle.json_tree.specs.Values.{HasDistinctKeys};
ghost use Rattle.json_tree.specs.View.{view};
ghost use Rattle.model_life.specs.resolution.Resolving.{HoldsRight};
ghost use Rattle.twin_patch.specs.Operations.{operations_of};
ghost use Rattle.twin_patch.specs.Patched.{patched_from};
ghost use Rattle.twin_patch.specs.declared.entry.PatchOf.{PatchOf};
ghost use Rattle.graph_steps.specs.held.Judged.{Unrefused};

use crate::twins::components::with_component;
use crate::twins::limits::within_limits;
use crate::twins::new_twin::NewTwin;
use crate::twins::refusals::{component_not_found, frozen, twin_not_found};
use dt_base::Text;
use dtdl_terms::Interface;
use graph_asks::Ask;
use graph_steps::bodies::{BodyFailure, kept_part, part_tree, patched};
use graph_steps::held::{Lent, judged_part};
use graph_steps::twins::Held;
use json_tree::{Tree, value_in};
use model_life::resolution::Resolutions;
use twin_patch::Patch;

/// The twin with the values of a component for which a tree stands that a patch made, where it may come. Fails by the first
/// reason why it may not, or for want of memory.
fn judged_values(
    lent: &Lent<'_>,
    resolutions: &mut Resolutions,
    name: &Text,
    interface: &Interface,
    held: &Held,
    tree: &Tree,
) -> Result<NewTwin, BodyFailure>
    requires typed { WellTyped (state_of lent.now) }
    requires there { interface_of (state_of lent.now) interface.now.id ≡ Some interface.now }
    requires at { twin_at held.now.twin.id (state_of lent.now) ≡ Some (twin_of held.now) }
    requires held { IsHeldTwin held.now }
    requires has { IsSome (component_at name.now (twin_of held.now)) }
    requires distinct { HasDistinctKeys (view tree.now) }
    requires right { HoldsRight (set_of (state_of lent.now)) resolutions.old }
    ensures right { HoldsRight (set_of (state_of lent.now)) resolutions.new }
    ensures judged { MatchResult result
        (λ new. Unrefused (RefusesNewPart (state_of lent.now) name.now interface.now (twin_of held.now) (Ok (view tree.now))) × (twin_view new.twin ≡ with_part name.now (view tree.now) (twin_of held.now)))
        (FailsBy (RefusesNewPart (state_of lent.now) name.now interface.now (twin_of held.now) (Ok (view tree.now)))) }
    ensures held { IfOk result (λ new. IsHeldTwin (record { twin = new.twin; bytes = new.bytes })) }
{
    let values = judged_part(lent, resolutions, name, interface, tree)?;
    let new = with_component(lent.alloc(), &held.twin, name, values)?;
    within_limits(lent, Some(held), new)
}

/// The twin of which a patch changes a component that it has, where it may come. Fails by the first reason why it may not,
/// or for want of memory.
fn judged_part_of(
    lent: &Lent<'_>,
    resolutions: &mut Resolutions,
    name: &Text,
    interface: &Interface,
    held: &Held,
    part: &Tree,
    patch: &Patch,
) -> Result<NewTwin, BodyFailure>
    requires typed { WellTyped (state_of lent.now) }
    requires there { interface_of (state_of lent.now) interface.now.id ≡ Some interface.now }
    requires at { twin_at held.now.twin.id (state_of lent.now) ≡ Some (twin_of held.now) }
    requires held { IsHeldTwin held.now }
    requires has { component_at name.now (twin_of held.now) ≡ Some (view part.now) }
    requires read { (of : PatchOf) × IsReadPatch of patch.now }
    requires right { HoldsRight (set_of (state_of lent.now)) resolutions.old }
    ensures right { HoldsRight (set_of (state_of lent.now)) resolutions.new }
    ensures judged { MatchResult result
        (λ new. Unrefused (RefusesNewPart (state_of lent.now) name.now interface.now (twin_of held.now) (patched_from 0 (operations_of patch.now.ops) (part_value (view part.now))))
        × (with_twin (twin_view new.twin) (state_of lent.now) ≡ with_new_part (state_of lent.now) name.now (twin_of held.now) (patched_from 0 (operations_of patch.now.ops) (part_value (view part.now)))))
        (FailsBy (RefusesNewPart (state_of lent.now) name.now interface.now (twin_of held.now) (patched_from 0 (operations_of patch.now.ops) (part_value (view part.now))))) }
    ensures id { IfOk result (λ new. new.twin.id ≡ held.now.twin.id) }
    ensures held { IfOk result (λ new. IsHeldTwin (record { twin = new.twin; bytes = new.bytes })) }
{
    kept_part();
    let before = part_tree(lent.alloc(), part)?;
    let after = patched(lent.alloc(), before, patch)?;
    judged_values(lent, resolutions, name, interface, held, &after)
}

/// The twin that an ask to patch a component brings. Fails by the first reason why it is refused, or for want of memory.
/// What is lent stays as it is.
pub fn judged_part_patch(
    lent: &Lent<'_>,
    resolutions: &mut Resolutions,
    id: &Text,
    name: &Text,
    patch: &Patch,
) -> Result<NewTwin, BodyFailure>
    requires typed { WellTyped (state_of lent.now) }
    requires sound { IsSoundAsk (Ask.PatchPart id.now name.now patch.now) }
    requires right { HoldsRight (set_of (state_of lent.now)) resolutions.old }
    ensures right { HoldsRight (set_of (state_of lent.now)) resolutions.new }
    ensures judged { MatchResult result
        (λ new. ((r : Refusal) → RefusesPatchPart (state_of lent.now) id.now name.now (operations_of patch.now.ops) r → ⊥)
        × (with_twin (twin_view new.twin) (state_of lent.now) ≡ after_patch_part (state_of lent.now) id.now name.now (operations_of patch.now.ops)))
        (FailsBy (RefusesPatchPart (state_of lent.now) id.now name.now (operations_of patch.now.ops))) }
    ensures id { IfOk result (λ new. new.twin.id ≡ id.now) }
    ensures held { IfOk result (λ new. IsHeldTwin (record { twin = new.twin; bytes = new.bytes })) }
{
    let Some(held) = lent.held(id) else {
        let refusal = twin_not_found(lent.alloc(), id)?;
        return Err(BodyFailure::Refused(refusal));
    };
    let Some(interface) = lent.interface(&held.twin.model) else {
        let refusal = frozen(lent.alloc(), &held.twin.model)?;
        return Err(BodyFailure::Refused(refusal));
    };
    let Some(part) = value_in(&held.twin.parts, name.as_str()) else {
        let refusal = component_not_found(lent.alloc(), name)?;
        return Err(BodyFailure::Refused(refusal));
    };
    judged_part_of(lent, resolutions, name, interface, held, part, patch)
}
