//! Bodies that are refused whatever their model is.

ghost use Rattle.std.specs.Prelude.{IfOk, IfSome, MatchOption};
ghost use Rattle.json_tree.specs.View.{view};
ghost use Rattle.twin_value.specs.Breaches.{HasNoBreach, IsOuterBreach, IsOuterLinkBreach};
ghost use Rattle.graph_steps.specs.TwinAsks.{BodyFault};
ghost use Rattle.graph_steps.specs.bodies.Machinery.Faults.{TellsBreach};
ghost use Rattle.json_tree.specs.Places.{IsSomewhere};

use crate::bodies::failure::fault_at;
use dt_base::OutOfMemory;
use graph_asks::Refusal;
use json_tree::{Place, Tree};
use std::alloc::Global;
use twin_value::{BodyCode, outer_link_breach, outer_twin_breach};

/// The refusal of a body by the breach that there may be.
fn refusal_of(
    alloc: Global,
    tree: &Tree,
    found: Option<(Place, BodyCode)>,
) -> Result<Option<Refusal>, OutOfMemory>
    requires { IfSome found (λ b. IsSomewhere (view tree.now) b.0.steps) }
    ensures { IfOk result (TellsBreach (view tree.now) found) }
{
    match found {
        Some((place, code)) => {
            let refusal = fault_at(alloc, tree, &place, code)?;
            Ok(Some(refusal))
        }
        None => Ok(None),
    }
}

/// The refusal of the body of a twin that names its first breach of those that show without a model; None exactly where
/// there is none. Fails only for want of memory.
pub fn outer_twin_fault(alloc: Global, tree: &Tree) -> Result<Option<Refusal>, OutOfMemory>
    ensures { IfOk result (λ refusal. MatchOption refusal (HasNoBreach (IsOuterBreach (view tree.now))) (BodyFault (IsOuterBreach (view tree.now)) (view tree.now))) }
{
    let found = outer_twin_breach(alloc, tree)?;
    refusal_of(alloc, tree, found)
}

/// The same of the body of a relationship. Fails only for want of memory.
pub fn outer_link_fault(alloc: Global, tree: &Tree) -> Result<Option<Refusal>, OutOfMemory>
    ensures { IfOk result (λ refusal. MatchOption refusal (HasNoBreach (IsOuterLinkBreach (view tree.now))) (BodyFault (IsOuterLinkBreach (view tree.now)) (view tree.now))) }
{
    let found = outer_link_breach(alloc, tree)?;
    refusal_of(alloc, tree, found)
}
