//! The ask that brings a relationship.

ghost use Rattle.std.specs.Prelude.{◌≡◌, IfOk, MatchResult, Some};
ghost use Rattle.graph_steps.specs.bodies.Bodies.{FailsBy};
ghost use Rattle.graph_steps.specs.bodies.Kept.{link_view, twin_view, IsKeptLink};
ghost use Rattle.graph_steps.specs.held.Held.{state_of, link_of, IsHeldLink};
ghost use Rattle.graph_steps.specs.Inherited.{contents};
ghost use Rattle.graph_steps.specs.LinkAsks.{RefusesLink, RefusesPutRel, after_put_rel, interface_from, link_for, with_link};
ghost use Rattle.graph_steps.specs.Soundness.{IsSoundAsk};
ghost use Rattle.graph_steps.specs.States.{interface_of, link_value, set_of, twin_at};
ghost use Rattle.graph_steps.specs.Typed.{WellTyped};
ghost use Rattle.json_tree.specs.Values.{HasDistinctKeys};
ghost use Rattle.json_tree.specs.View.{view};
ghost use Rattle.model_life.specs.resolution.Resolving.{HoldsRight};
ghost use Rattle.twin_value.specs.Breaches.{link_called};
ghost use Rattle.graph_steps.specs.held.Judged.{Unrefused};
ghost use Rattle.graph_judges.specs.links.Machinery.Refused.{RefusesEnds, RefusesDeclaredOrFull};

use crate::links::contents::declared_refusal;
use crate::links::new_link::{NewLink, admitted};
use crate::links::source::{frozen, no_twin};
use dt_base::Text;
use dtdl_terms::Interface;
use graph_asks::Ask;
use graph_steps::bodies::BodyFailure;
use graph_steps::held::{Lent, judged_link};
use json_tree::Tree;
use model_life::resolution::Resolutions;
use twin_value::{Relationship, Twin};

/// The relationship that comes by an ask, or comes in the place of the one with its source and id, with what is printed of
/// it. Fails by the first refusal of the ask: its source is not there, or is frozen; the body has a breach; the target is
/// not there, or is of another model than is declared; there would be too many of the name; a limit would be passed. Or
/// fails for want of memory. What is held of models stays right.
pub fn judged_rel(
    lent: &Lent<'_>,
    resolutions: &mut Resolutions,
    source: &Text,
    id: &Text,
    name: &Text,
    target: &Text,
    tree: &Tree,
) -> Result<NewLink, BodyFailure>
    requires typed { WellTyped (state_of lent.now) }
    requires right { HoldsRight (set_of (state_of lent.now)) resolutions.old }
    requires sound { IsSoundAsk (Ask.PutRel source.now id.now name.now target.now tree.now) }
    ensures right { HoldsRight (set_of (state_of lent.now)) resolutions.new }
    ensures judged { MatchResult result
        (λ new. Unrefused (RefusesPutRel (state_of lent.now) source.now id.now name.now target.now (view tree.now))
        × (with_link (link_of new.edge) (state_of lent.now) ≡ after_put_rel (state_of lent.now) source.now id.now name.now target.now (view tree.now)))
        (FailsBy (RefusesPutRel (state_of lent.now) source.now id.now name.now target.now (view tree.now))) }
    ensures key { IfOk result (λ new. (new.edge.source ≡ source.now) × (new.edge.id ≡ id.now)) }
    ensures held { IfOk result (λ new. IsHeldLink new.edge) }
    ensures tree { IfOk result (λ new. view new.tree ≡ link_value (link_of new.edge)) }
{
    let Some(twin) = lent.twin(source) else {
        return Err(no_twin(lent.alloc(), source));
    };
    let Some(interface) = lent.interface(&twin.model) else {
        return Err(frozen(lent.alloc(), twin));
    };
    judged_from(lent, resolutions, interface, source, id, name, target, tree)
}

/// The same out of a twin of this interface.
fn judged_from(
    lent: &Lent<'_>,
    resolutions: &mut Resolutions,
    interface: &Interface,
    source: &Text,
    id: &Text,
    name: &Text,
    target: &Text,
    tree: &Tree,
) -> Result<NewLink, BodyFailure>
    requires typed { WellTyped (state_of lent.now) }
    requires there { interface_of (state_of lent.now) interface.now.id ≡ Some interface.now }
    requires distinct { HasDistinctKeys (view tree.now) }
    requires right { HoldsRight (set_of (state_of lent.now)) resolutions.old }
    ensures right { HoldsRight (set_of (state_of lent.now)) resolutions.new }
    ensures judged { MatchResult result
        (λ new. Unrefused (RefusesLink (state_of lent.now) interface.now source.now id.now name.now target.now (view tree.now))
        × (link_of new.edge ≡ link_for (state_of lent.now) interface.now source.now id.now name.now target.now (view tree.now)))
        (FailsBy (RefusesLink (state_of lent.now) interface.now source.now id.now name.now target.now (view tree.now))) }
    ensures held { IfOk result (λ new. IsHeldLink new.edge) }
    ensures tree { IfOk result (λ new. view new.tree ≡ link_value (link_of new.edge)) }
{
    match judged_link(lent, resolutions, source, id, name, target, interface, tree) {
        Ok(link) => leading(lent, resolutions, interface, link),
        Err(failure) => Err(failure),
    }
}

/// A relationship whose body has no breach, where its target and all behind that suit it.
fn leading(
    lent: &Lent<'_>,
    resolutions: &mut Resolutions,
    interface: &Interface,
    link: Relationship,
) -> Result<NewLink, BodyFailure>
    requires typed { WellTyped (state_of lent.now) }
    requires there { interface_of (state_of lent.now) interface.now.id ≡ Some interface.now }
    requires kept { IsKeptLink (link_view link) }
    requires right { HoldsRight (set_of (state_of lent.now)) resolutions.old }
    ensures right { HoldsRight (set_of (state_of lent.now)) resolutions.new }
    ensures judged { MatchResult result
        (λ new. Unrefused (RefusesEnds (state_of lent.now) interface.now (link_view link)) × (link_of new.edge ≡ link_view link))
        (FailsBy (RefusesEnds (state_of lent.now) interface.now (link_view link))) }
    ensures held { IfOk result (λ new. IsHeldLink new.edge) }
    ensures tree { IfOk result (λ new. view new.tree ≡ link_value (link_of new.edge)) }
{
    let Some(twin) = lent.twin(&link.target) else {
        let failure = no_twin(lent.alloc(), &link.target);
        drop(link);
        return Err(failure);
    };
    fitting(lent, resolutions, interface, twin, link)
}

/// A relationship to this twin, where it suits what is declared of its name, and the limits.
fn fitting(
    lent: &Lent<'_>,
    resolutions: &mut Resolutions,
    interface: &Interface,
    twin: &Twin,
    link: Relationship,
) -> Result<NewLink, BodyFailure>
    requires typed { WellTyped (state_of lent.now) }
    requires there { interface_of (state_of lent.now) interface.now.id ≡ Some interface.now }
    requires kept { IsKeptLink (link_view link) }
    requires target { twin_at link.target (state_of lent.now) ≡ Some (twin_view twin.now) }
    requires right { HoldsRight (set_of (state_of lent.now)) resolutions.old }
    ensures right { HoldsRight (set_of (state_of lent.now)) resolutions.new }
    ensures judged { MatchResult result
        (λ new. Unrefused (RefusesDeclaredOrFull (state_of lent.now) (link_called link.name (contents (set_of (state_of lent.now)) interface.now)) (link_view link))
        × (link_of new.edge ≡ link_view link))
        (FailsBy (RefusesDeclaredOrFull (state_of lent.now) (link_called link.name (contents (set_of (state_of lent.now)) interface.now)) (link_view link))) }
    ensures held { IfOk result (λ new. IsHeldLink new.edge) }
    ensures tree { IfOk result (λ new. view new.tree ≡ link_value (link_of new.edge)) }
{
    let found = declared_refusal(lent, resolutions, interface, twin, &link)?;
    if let Some(refusal) = found {
        drop(link);
        return Err(BodyFailure::Refused(refusal));
    }
    admitted(lent, link)
}
