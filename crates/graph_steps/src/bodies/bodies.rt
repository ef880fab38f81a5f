//! Twins from their bodies.

ghost use Rattle.std.specs.Prelude.{◌≡◌, IfOk, MatchResult};
ghost use Rattle.json_tree.specs.Values.{HasDistinctKeys};
ghost use Rattle.json_tree.specs.View.{view};
ghost use Rattle.twin_value.specs.Breaches.{IsTwinBreach, HasNoBreach};
ghost use Rattle.graph_steps.specs.Inherited.{inherited};
ghost use Rattle.graph_steps.specs.States.{State, set_of};
ghost use Rattle.graph_steps.specs.TwinAsks.{BodyFault, twin_for};
ghost use Rattle.graph_steps.specs.bodies.Bodies.{IsModelIn, FailsBy};
ghost use Rattle.graph_steps.specs.bodies.Kept.{twin_view, IsKeptTwin};

use crate::bodies::failure::{BodyFailure, failure_of};
use dt_base::names::Dtmi;
use dt_base::{OutOfMemory, Text};
use dtdl_terms::{Interface, Resolved};
use json_tree::Tree;
use std::alloc::Global;
use twin_value::{Twin, read_values};

/// The twin of an identifier and a model with these values and components.
fn twin_with(
    alloc: Global,
    id: &str,
    model: &Dtmi,
    values: Tree,
    parts: Tree,
) -> Result<Twin, OutOfMemory>
    ensures { IfOk result (λ t. t ≡ record { id = id.now; model = model.now; values = values; parts = parts }) }
{
    let id = Text::from_str(alloc, id)?;
    let model = model.copy(alloc)?;
    Ok(Twin {
        id,
        model,
        values,
        parts,
    })
}

/// The twin of an identifier for which a body stands, as the graph's definitions say of each state that has the interface
/// with these contents as a model. Fails by the refusal that names the body's first breach, or for want of memory.
pub fn twin_from_body(
    alloc: Global,
    id: &str,
    tree: &Tree,
    interface: &Interface,
    resolved: &Resolved,
) -> Result<Twin, BodyFailure>
    requires { HasDistinctKeys (view tree.now) }
    ensures twin { (s : State) → IsModelIn s interface.now resolved.now → MatchResult result
        (λ twin. HasNoBreach (IsTwinBreach (inherited (set_of s) interface.now) (view tree.now)) × (twin_view twin ≡ twin_for s id.now interface.now (view tree.now)))
        (FailsBy (BodyFault (IsTwinBreach (inherited (set_of s) interface.now) (view tree.now)) (view tree.now))) }
    ensures kept { IfOk result (λ twin. IsKeptTwin (twin_view twin)) }
{
    match read_values(alloc, tree, resolved) {
        Ok((values, parts)) => {
            let twin = twin_with(alloc, id, &interface.id, values, parts)?;
            Ok(twin)
        }
        Err(end) => Err(failure_of(alloc, tree, end)),
    }
}
