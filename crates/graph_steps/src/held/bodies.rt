//! Bodies judged by what a model of the graph has, which is made where it is first asked for, and held for the next time.

ghost use Rattle.std.specs.Prelude.{◌≡◌, IfOk, IsSome, MatchResult, OnOk, Some};
ghost use Rattle.extend_resolve.specs.Breaches.{BreaksNoRule};
ghost use Rattle.graph_steps.specs.bodies.Bodies.{FailsBy};
ghost use Rattle.graph_steps.specs.bodies.Kept.{twin_view, link_view, IsKeptTwin, IsKeptLink, IsKeptPart};
ghost use Rattle.graph_steps.specs.Inherited.{inherited};
ghost use Rattle.graph_steps.specs.LinkAsks.{link_for};
ghost use Rattle.graph_steps.specs.States.{interface_of, set_of};
ghost use Rattle.graph_steps.specs.TwinAsks.{BodyFault, part_role_in, twin_for};
ghost use Rattle.json_tree.specs.Values.{HasDistinctKeys};
ghost use Rattle.json_tree.specs.View.{view};
ghost use Rattle.model_life.specs.resolution.Resolving.{HoldsRight, entry_at};
ghost use Rattle.twin_patch.specs.Objects.{sorted_value};
ghost use Rattle.twin_value.specs.Breaches.{HasNoBreach, IsBodyBreach, IsLinkBreach, IsTwinBreach};
ghost use Rattle.twin_value.specs.Twins.{without_metadata};
ghost use Rattle.graph_steps.specs.held.Held.{state_of};

use crate::bodies::{BodyFailure, link_from_body, part_from_body, twin_from_body};
use crate::held::lent::Lent;
use dt_base::{OutOfMemory, Text};
use dtdl_terms::{Interface, Resolved};
use json_tree::Tree;
use model_life::resolution::Resolutions;
use twin_value::{Relationship, Twin};

/// Makes what an interface of a model has with all that it inherits, where it is not held.
fn ready(
    lent: &Lent<'_>,
    resolutions: &mut Resolutions,
    interface: &Interface,
) -> Result<(), OutOfMemory>
    requires there { interface_of (state_of lent.now) interface.now.id ≡ Some interface.now }
    requires right { HoldsRight (set_of (state_of lent.now)) resolutions.old }
    ensures held { OnOk result (IsSome (entry_at interface.now.id resolutions.new)) }
    ensures rules { BreaksNoRule (set_of (state_of lent.now)) }
    ensures right { HoldsRight (set_of (state_of lent.now)) resolutions.new }
{
    let models = lent.models();
    models.sound();
    resolutions.ready(models.set(), &interface.id)
}

/// What is held of an interface.
fn held_of<'r>(resolutions: &'r Resolutions, interface: &Interface) -> &'r Resolved
    requires { IsSome (entry_at interface.now.id resolutions.now) }
    ensures { entry_at interface.now.id resolutions.now ≡ Some result.now }
{
    match resolutions.get(&interface.id) {
        Some(resolved) => resolved,
        None => unreachable!(),
    }
}

/// The twin of an id for which a body stands, judged by what this interface of a model has. Fails by the refusal that names
/// the body's first breach, or for want of memory.
pub fn judged_twin(
    lent: &Lent<'_>,
    resolutions: &mut Resolutions,
    id: &Text,
    interface: &Interface,
    tree: &Tree,
) -> Result<Twin, BodyFailure>
    requires there { interface_of (state_of lent.now) interface.now.id ≡ Some interface.now }
    requires distinct { HasDistinctKeys (view tree.now) }
    requires right { HoldsRight (set_of (state_of lent.now)) resolutions.old }
    ensures right { HoldsRight (set_of (state_of lent.now)) resolutions.new }
    ensures twin { MatchResult result
        (λ twin. HasNoBreach (IsTwinBreach (inherited (set_of (state_of lent.now)) interface.now) (view tree.now)) × (twin_view twin ≡ twin_for (state_of lent.now) id.now interface.now (view tree.now)))
        (FailsBy (BodyFault (IsTwinBreach (inherited (set_of (state_of lent.now)) interface.now) (view tree.now)) (view tree.now))) }
    ensures kept { IfOk result (λ twin. IsKeptTwin (twin_view twin)) }
{
    ready(lent, resolutions, interface)?;
    let resolved = held_of(resolutions, interface);
    twin_from_body(lent.alloc(), id.as_str(), tree, interface, resolved)
}

/// The relationship of this source, id, name and target for which a body stands, judged by what this interface of the
/// source's model has. Fails by the refusal that names the body's first breach, or for want of memory.
pub fn judged_link(
    lent: &Lent<'_>,
    resolutions: &mut Resolutions,
    source: &Text,
    id: &Text,
    name: &Text,
    target: &Text,
    interface: &Interface,
    tree: &Tree,
) -> Result<Relationship, BodyFailure>
    requires there { interface_of (state_of lent.now) interface.now.id ≡ Some interface.now }
    requires distinct { HasDistinctKeys (view tree.now) }
    requires right { HoldsRight (set_of (state_of lent.now)) resolutions.old }
    ensures right { HoldsRight (set_of (state_of lent.now)) resolutions.new }
    ensures link { MatchResult result
        (λ link. HasNoBreach (IsLinkBreach (inherited (set_of (state_of lent.now)) interface.now) (view tree.now)) × (link_view link ≡ link_for (state_of lent.now) interface.now source.now id.now name.now target.now (view tree.now)))
        (FailsBy (BodyFault (IsLinkBreach (inherited (set_of (state_of lent.now)) interface.now) (view tree.now)) (view tree.now))) }
    ensures kept { IfOk result (λ link. IsKeptLink (link_view link)) }
{
    ready(lent, resolutions, interface)?;
    let resolved = held_of(resolutions, interface);
    link_from_body(
        lent.alloc(),
        source.as_str(),
        id.as_str(),
        name.as_str(),
        target.as_str(),
        tree,
        resolved,
    )
}

/// The values of a component of this name for which a tree stands, judged by what this interface of the twin's model has.
/// Fails by the refusal that names the tree's first breach, or for want of memory.
pub fn judged_part(
    lent: &Lent<'_>,
    resolutions: &mut Resolutions,
    name: &Text,
    interface: &Interface,
    tree: &Tree,
) -> Result<Tree, BodyFailure>
    requires there { interface_of (state_of lent.now) interface.now.id ≡ Some interface.now }
    requires distinct { HasDistinctKeys (view tree.now) }
    requires right { HoldsRight (set_of (state_of lent.now)) resolutions.old }
    ensures right { HoldsRight (set_of (state_of lent.now)) resolutions.new }
    ensures part { MatchResult result
        (λ values. HasNoBreach (IsBodyBreach (part_role_in (state_of lent.now) interface.now name.now) (view tree.now)) × (view values ≡ sorted_value (without_metadata (view tree.now))))
        (FailsBy (BodyFault (IsBodyBreach (part_role_in (state_of lent.now) interface.now name.now) (view tree.now)) (view tree.now))) }
    ensures kept { IfOk result (λ values. IsKeptPart (view values)) }
{
    ready(lent, resolutions, interface)?;
    let resolved = held_of(resolutions, interface);
    part_from_body(lent.alloc(), name.as_str(), tree, resolved)
}
