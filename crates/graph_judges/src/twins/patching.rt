//! The ask that patches a twin.

ghost use Rattle.std.specs.Prelude.{◌≡◌, Some, IfOk, IfSome, MatchResult};
ghost use Rattle.std.specs.Option.{option_copied, option_map};
ghost use Rattle.graph_asks.specs.declared.refusal.Refusal.{Refusal};
ghost use Rattle.graph_steps.specs.bodies.Bodies.{FailsBy};
ghost use Rattle.graph_steps.specs.bodies.Kept.{twin_view};
ghost use Rattle.graph_steps.specs.held.Held.{state_of, twin_of, IsHeldTwin};
ghost use Rattle.graph_steps.specs.Soundness.{IsReadPatch, IsSoundAsk};
ghost use Rattle.graph_steps.specs.States.{set_of, twin_at, twin_value, with_twin};
ghost use Rattle.graph_steps.specs.TwinAsks.{BodyFault, RefusesNewBody, RefusesPatched, RefusesPatchTwin, after_patch_twin, interface_in, with_body, with_patched};
ghost use Rattle.graph_steps.specs.Typed.{WellTyped};
ghost use Rattle.json_tree.specs.Values.{HasDistinctKeys};
ghost use Rattle.json_tree.specs.View.{view};
ghost use Rattle.model_life.specs.resolution.Resolving.{HoldsRight};
ghost use Rattle.twin_patch.specs.Operations.{operations_of};
ghost use Rattle.twin_patch.specs.Patched.{patched_from};
ghost use Rattle.twin_patch.specs.declared.entry.PatchOf.{PatchOf};
ghost use Rattle.twin_value.specs.Breaches.{HasNoBreach, IsOuterBreach};
ghost use Rattle.graph_steps.specs.held.Judged.{Unrefused};

use crate::twins::body::judged_body;
use crate::twins::frozen::unless_frozen;
use crate::twins::models::model_of;
use crate::twins::new_twin::NewTwin;
use crate::twins::refusals::twin_not_found;
use dt_base::Text;
use graph_asks::Ask;
use graph_steps::bodies::{BodyFailure, outer_twin_fault, patched, twin_tree};
use graph_steps::held::Lent;
use graph_steps::twins::Held;
use json_tree::Tree;
use model_life::resolution::Resolutions;
use twin_patch::Patch;

/// Refuses a body that has a breach which shows without a model, or for want of memory.
fn unless_outer_fault(lent: &Lent<'_>, tree: &Tree) -> Result<(), BodyFailure>
    ensures { MatchResult result (λ _. HasNoBreach (IsOuterBreach (view tree.now))) (FailsBy (BodyFault (IsOuterBreach (view tree.now)) (view tree.now))) }
{
    let Some(refusal) = outer_twin_fault(lent.alloc(), tree)? else {
        return Ok(());
    };
    Err(BodyFailure::Refused(refusal))
}

/// The twin of an id for which a body stands that a patch made, where it may come in the place of the one that there may be.
/// Fails by the first reason why it may not, or for want of memory.
fn judged_new_body(
    lent: &Lent<'_>,
    resolutions: &mut Resolutions,
    there: Option<&Held>,
    id: &Text,
    tree: &Tree,
) -> Result<NewTwin, BodyFailure>
    requires typed { WellTyped (state_of lent.now) }
    requires old { option_map twin_of (option_copied there) ≡ twin_at id.now (state_of lent.now) }
    requires held { IfSome (option_copied there) IsHeldTwin }
    requires distinct { HasDistinctKeys (view tree.now) }
    requires right { HoldsRight (set_of (state_of lent.now)) resolutions.old }
    ensures right { HoldsRight (set_of (state_of lent.now)) resolutions.new }
    ensures judged { MatchResult result
        (λ new. Unrefused (RefusesNewBody (state_of lent.now) id.now (view tree.now))
        × (with_twin (twin_view new.twin) (state_of lent.now) ≡ with_body (state_of lent.now) id.now (interface_in (state_of lent.now) (view tree.now)) (view tree.now)))
        (FailsBy (RefusesNewBody (state_of lent.now) id.now (view tree.now))) }
    ensures id { IfOk result (λ new. new.twin.id ≡ id.now) }
    ensures held { IfOk result (λ new. IsHeldTwin (record { twin = new.twin; bytes = new.bytes })) }
{
    unless_outer_fault(lent, tree)?;
    let model = model_of(lent.alloc(), tree)?;
    judged_body(lent, resolutions, there, id, &model, tree)
}

/// The twin that a patch makes of one that is there, where it may come. Fails by the first reason why it may not, or for
/// want of memory.
fn judged_patched(
    lent: &Lent<'_>,
    resolutions: &mut Resolutions,
    id: &Text,
    held: &Held,
    patch: &Patch,
) -> Result<NewTwin, BodyFailure>
    requires typed { WellTyped (state_of lent.now) }
    requires at { twin_at id.now (state_of lent.now) ≡ Some (twin_of held.now) }
    requires held { IsHeldTwin held.now }
    requires read { (of : PatchOf) × IsReadPatch of patch.now }
    requires right { HoldsRight (set_of (state_of lent.now)) resolutions.old }
    ensures right { HoldsRight (set_of (state_of lent.now)) resolutions.new }
    ensures judged { MatchResult result
        (λ new. Unrefused (RefusesPatched (state_of lent.now) id.now (patched_from 0 (operations_of patch.now.ops) (twin_value (twin_of held.now))))
        × (with_twin (twin_view new.twin) (state_of lent.now) ≡ with_patched (state_of lent.now) id.now (patched_from 0 (operations_of patch.now.ops) (twin_value (twin_of held.now)))))
        (FailsBy (RefusesPatched (state_of lent.now) id.now (patched_from 0 (operations_of patch.now.ops) (twin_value (twin_of held.now))))) }
    ensures id { IfOk result (λ new. new.twin.id ≡ id.now) }
    ensures held { IfOk result (λ new. IsHeldTwin (record { twin = new.twin; bytes = new.bytes })) }
{
    let before = twin_tree(lent.alloc(), &held.twin)?;
    let after = patched(lent.alloc(), before, patch)?;
    judged_new_body(lent, resolutions, Some(held), id, &after)
}

/// The twin that an ask to patch one brings. Fails by the first reason why it is refused, or for want of memory. What is lent
/// stays as it is.
pub fn judged_patch(
    lent: &Lent<'_>,
    resolutions: &mut Resolutions,
    id: &Text,
    patch: &Patch,
) -> Result<NewTwin, BodyFailure>
    requires typed { WellTyped (state_of lent.now) }
    requires sound { IsSoundAsk (Ask.PatchTwin id.now patch.now) }
    requires right { HoldsRight (set_of (state_of lent.now)) resolutions.old }
    ensures right { HoldsRight (set_of (state_of lent.now)) resolutions.new }
    ensures judged { MatchResult result
        (λ new. ((r : Refusal) → RefusesPatchTwin (state_of lent.now) id.now (operations_of patch.now.ops) r → ⊥)
        × (with_twin (twin_view new.twin) (state_of lent.now) ≡ after_patch_twin (state_of lent.now) id.now (operations_of patch.now.ops)))
        (FailsBy (RefusesPatchTwin (state_of lent.now) id.now (operations_of patch.now.ops))) }
    ensures id { IfOk result (λ new. new.twin.id ≡ id.now) }
    ensures held { IfOk result (λ new. IsHeldTwin (record { twin = new.twin; bytes = new.bytes })) }
{
    let there = unless_frozen(lent, id)?;
    let Some(held) = there else {
        let refusal = twin_not_found(lent.alloc(), id)?;
        return Err(BodyFailure::Refused(refusal));
    };
    judged_patched(lent, resolutions, id, held, patch)
}
