//! Bodies that are refused whatever their model is.

ghost use Rattle.std.specs.Prelude.{◌≡◌, Some, IfOk, MatchOption};
ghost use Rattle.json_tree.specs.View.{view};
ghost use Rattle.twin_value.specs.Breaches.{HasNoBreach, IsOuterBreach, IsOuterLinkBreach};
ghost use Rattle.graph_steps.specs.TwinAsks.{BodyFault};
ghost use Rattle.graph_routes.specs.Machinery.Found.{NamesFault};
ghost use Rattle.json_tree.specs.Places.{IsSomewhere};

use dt_base::{OutOfMemory, Text};
use graph_asks::{At, Refusal};
use json_tree::{Place, Tree, pointer_of};
use std::alloc::Global;
use twin_value::{BodyCode, outer_link_breach, outer_twin_breach};

/// The refusal of a body with a breach at a place.
fn fault_at(
    alloc: Global,
    tree: &Tree,
    place: &Place,
    code: BodyCode,
) -> Result<Refusal, OutOfMemory>
    requires { IsSomewhere (view tree.now) place.now.steps }
    ensures { IfOk result (NamesFault (view tree.now) place.now.steps code) }
{
    let pointer = pointer_of(alloc, tree, place)?;
    let fault = Text::from_str(alloc, code.text())?;
    Ok(Refusal::BodyFault {
        at: At::Pointer(pointer.text),
        fault,
    })
}

/// The refusal of the body of a twin that names its first breach of those that show without a model; none where there is
/// none. Only want of memory makes it fail.
pub fn twin_refusal(alloc: Global, tree: &Tree) -> Result<Option<Refusal>, OutOfMemory>
    ensures { IfOk result (λ refusal. MatchOption refusal (HasNoBreach (IsOuterBreach (view tree.now))) (BodyFault (IsOuterBreach (view tree.now)) (view tree.now))) }
{
    match outer_twin_breach(alloc, tree)? {
        Some((place, code)) => Ok(Some(fault_at(alloc, tree, &place, code)?)),
        None => Ok(None),
    }
}

/// The same of the body of a relationship.
pub fn link_refusal(alloc: Global, tree: &Tree) -> Result<Option<Refusal>, OutOfMemory>
    ensures { IfOk result (λ refusal. MatchOption refusal (HasNoBreach (IsOuterLinkBreach (view tree.now))) (BodyFault (IsOuterLinkBreach (view tree.now)) (view tree.now))) }
{
    match outer_link_breach(alloc, tree)? {
        Some((place, code)) => Ok(Some(fault_at(alloc, tree, &place, code)?)),
        None => Ok(None),
    }
}
