//! Components from their bodies.

ghost use Rattle.std.specs.Prelude.{◌≡◌, IfOk, MatchResult};
ghost use Rattle.json_tree.specs.Values.{HasDistinctKeys};
ghost use Rattle.json_tree.specs.View.{view};
ghost use Rattle.dtdl_terms.specs.declared.interface.Interface.{Interface};
ghost use Rattle.twin_patch.specs.Objects.{sorted_value};
ghost use Rattle.twin_value.specs.Breaches.{IsBodyBreach, HasNoBreach};
ghost use Rattle.twin_value.specs.Twins.{without_metadata};
ghost use Rattle.graph_steps.specs.States.{State};
ghost use Rattle.graph_steps.specs.TwinAsks.{BodyFault, part_role_in};
ghost use Rattle.graph_steps.specs.bodies.Bodies.{IsModelIn, FailsBy};
ghost use Rattle.graph_steps.specs.bodies.Kept.{IsKeptPart};

use crate::bodies::failure::{BodyFailure, failure_of};
use dtdl_terms::Resolved;
use json_tree::Tree;
use std::alloc::Global;
use twin_value::read_part;

/// The values of a component of this name for which a tree stands, as the graph's definitions say of each state that has
/// the interface with these contents as a model: without its `$metadata`, and sorted. Fails by the refusal that names the
/// tree's first breach, or for want of memory.
pub fn part_from_body(
    alloc: Global,
    name: &str,
    tree: &Tree,
    resolved: &Resolved,
) -> Result<Tree, BodyFailure>
    requires { HasDistinctKeys (view tree.now) }
    ensures part { (s : State) (i : Interface) → IsModelIn s i resolved.now → MatchResult result
        (λ values. HasNoBreach (IsBodyBreach (part_role_in s i name.now) (view tree.now)) × (view values ≡ sorted_value (without_metadata (view tree.now))))
        (FailsBy (BodyFault (IsBodyBreach (part_role_in s i name.now) (view tree.now)) (view tree.now))) }
    ensures kept { IfOk result (λ values. IsKeptPart (view values)) }
{
    match read_part(alloc, name, tree, resolved) {
        Ok(values) => Ok(values),
        Err(end) => Err(failure_of(alloc, tree, end)),
    }
}
