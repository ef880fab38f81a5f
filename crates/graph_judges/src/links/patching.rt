//! The ask that patches a relationship.

ghost use Rattle.std.specs.Prelude.{◌≡◌, IfOk, MatchResult, Ok, Some};
ghost use Rattle.graph_steps.specs.bodies.Bodies.{FailsBy};
ghost use Rattle.graph_steps.specs.bodies.Kept.{IsKeptLink};
ghost use Rattle.graph_steps.specs.held.Held.{state_of, link_of, IsHeldLink};
ghost use Rattle.graph_steps.specs.LinkAsks.{RefusesNewLink, RefusesPatchRel, after_patch_rel, with_link, with_payload};
ghost use Rattle.graph_steps.specs.Soundness.{IsReadPatch, IsSoundAsk};
ghost use Rattle.graph_steps.specs.States.{interface_of, link_value, set_of};
ghost use Rattle.graph_steps.specs.Typed.{WellTyped};
ghost use Rattle.json_tree.specs.Values.{HasDistinctKeys};
ghost use Rattle.json_tree.specs.View.{view};
ghost use Rattle.model_life.specs.resolution.Resolving.{HoldsRight};
ghost use Rattle.twin_patch.specs.Operations.{operations_of};
ghost use Rattle.twin_patch.specs.Patched.{patched_from};
ghost use Rattle.twin_patch.specs.declared.entry.PatchOf.{PatchOf};
ghost use Rattle.graph_steps.specs.held.Judged.{Unrefused};
ghost use Rattle.graph_judges.specs.links.Machinery.Refused.{IsPatched};

use crate::links::new_link::{NewLink, admitted};
use crate::links::source::{frozen, no_link, no_twin};
use dt_base::Text;
use dtdl_terms::Interface;
use graph_asks::Ask;
use graph_steps::bodies::{BodyFailure, patched};
use graph_steps::held::{Lent, Stored, judged_link, stored_tree};
use json_tree::Tree;
use model_life::resolution::Resolutions;
use rel_graph::Edge;
use twin_patch::Patch;

/// The relationship that a patch makes of the one of a source with an id, with what is printed of it; its source, id, name
/// and target stay. Fails by the first refusal of the ask: the source is not there, the relationship is not there, the
/// source is frozen, an operation has no target, the patched body has a breach, a limit would be passed. Or fails for want
/// of memory. What is held of models stays right.
pub fn judged_rel_patch(
    lent: &Lent<'_>,
    resolutions: &mut Resolutions,
    source: &Text,
    id: &Text,
    patch: &Patch,
) -> Result<NewLink, BodyFailure>
    requires typed { WellTyped (state_of lent.now) }
    requires right { HoldsRight (set_of (state_of lent.now)) resolutions.old }
    requires sound { IsSoundAsk (Ask.PatchRel source.now id.now patch.now) }
    ensures right { HoldsRight (set_of (state_of lent.now)) resolutions.new }
    ensures judged { MatchResult result
        (λ new. Unrefused (RefusesPatchRel (state_of lent.now) source.now id.now (operations_of patch.now.ops))
        × (with_link (link_of new.edge) (state_of lent.now) ≡ after_patch_rel (state_of lent.now) source.now id.now (operations_of patch.now.ops)))
        (FailsBy (RefusesPatchRel (state_of lent.now) source.now id.now (operations_of patch.now.ops))) }
    ensures key { IfOk result (λ new. (new.edge.source ≡ source.now) × (new.edge.id ≡ id.now)) }
    ensures held { IfOk result (λ new. IsHeldLink new.edge) }
    ensures tree { IfOk result (λ new. view new.tree ≡ link_value (link_of new.edge)) }
{
    let Some(twin) = lent.twin(source) else {
        return Err(no_twin(lent.alloc(), source));
    };
    let Some(link) = lent.link(source, id) else {
        return Err(no_link(lent.alloc(), id));
    };
    let Some(interface) = lent.interface(&twin.model) else {
        return Err(frozen(lent.alloc(), twin));
    };
    patched_link(lent, resolutions, interface, link, patch)
}

/// What a patch makes of a relationship out of a twin of this interface.
fn patched_link(
    lent: &Lent<'_>,
    resolutions: &mut Resolutions,
    interface: &Interface,
    link: &Edge<Stored>,
    patch: &Patch,
) -> Result<NewLink, BodyFailure>
    requires typed { WellTyped (state_of lent.now) }
    requires there { interface_of (state_of lent.now) interface.now.id ≡ Some interface.now }
    requires kept { IsKeptLink (link_of link.now) }
    requires read { (of : PatchOf) × IsReadPatch of patch.now }
    requires right { HoldsRight (set_of (state_of lent.now)) resolutions.old }
    ensures right { HoldsRight (set_of (state_of lent.now)) resolutions.new }
    ensures judged { MatchResult result
        (λ new. Unrefused (RefusesNewLink (state_of lent.now) interface.now (link_of link.now) (patched_from 0 (operations_of patch.now.ops) (link_value (link_of link.now))))
        × IsPatched (state_of lent.now) interface.now (link_of link.now) (patched_from 0 (operations_of patch.now.ops) (link_value (link_of link.now))) (link_of new.edge))
        (FailsBy (RefusesNewLink (state_of lent.now) interface.now (link_of link.now) (patched_from 0 (operations_of patch.now.ops) (link_value (link_of link.now))))) }
    ensures held { IfOk result (λ new. IsHeldLink new.edge) }
    ensures tree { IfOk result (λ new. view new.tree ≡ link_value (link_of new.edge)) }
{
    let tree = stored_tree(lent.alloc(), link)?;
    match patched(lent.alloc(), tree, patch) {
        Ok(new) => judged_again(lent, resolutions, interface, link, &new),
        Err(failure) => Err(failure),
    }
}

/// The same relationship with the properties of another body.
fn judged_again(
    lent: &Lent<'_>,
    resolutions: &mut Resolutions,
    interface: &Interface,
    link: &Edge<Stored>,
    tree: &Tree,
) -> Result<NewLink, BodyFailure>
    requires typed { WellTyped (state_of lent.now) }
    requires there { interface_of (state_of lent.now) interface.now.id ≡ Some interface.now }
    requires distinct { HasDistinctKeys (view tree.now) }
    requires right { HoldsRight (set_of (state_of lent.now)) resolutions.old }
    ensures right { HoldsRight (set_of (state_of lent.now)) resolutions.new }
    ensures judged { MatchResult result
        (λ new. Unrefused (RefusesNewLink (state_of lent.now) interface.now (link_of link.now) (Ok (view tree.now)))
        × (link_of new.edge ≡ with_payload (state_of lent.now) interface.now (view tree.now) (link_of link.now)))
        (FailsBy (RefusesNewLink (state_of lent.now) interface.now (link_of link.now) (Ok (view tree.now)))) }
    ensures held { IfOk result (λ new. IsHeldLink new.edge) }
    ensures tree { IfOk result (λ new. view new.tree ≡ link_value (link_of new.edge)) }
{
    match judged_link(
        lent,
        resolutions,
        &link.source,
        &link.id,
        &link.name,
        &link.target,
        interface,
        tree,
    ) {
        Ok(new) => admitted(lent, new),
        Err(failure) => Err(failure),
    }
}
