//! Relationships from their bodies.

ghost use Rattle.std.specs.Prelude.{◌≡◌, IfOk, MatchResult};
ghost use Rattle.json_tree.specs.Values.{HasDistinctKeys};
ghost use Rattle.json_tree.specs.View.{view};
ghost use Rattle.dtdl_terms.specs.declared.interface.Interface.{Interface};
ghost use Rattle.twin_value.specs.Breaches.{IsLinkBreach, HasNoBreach};
ghost use Rattle.graph_steps.specs.Inherited.{inherited};
ghost use Rattle.graph_steps.specs.LinkAsks.{link_for};
ghost use Rattle.graph_steps.specs.States.{State, set_of};
ghost use Rattle.graph_steps.specs.TwinAsks.{BodyFault};
ghost use Rattle.graph_steps.specs.bodies.Bodies.{IsModelIn, FailsBy};
ghost use Rattle.graph_steps.specs.bodies.Kept.{link_view, IsKeptLink};

use crate::bodies::failure::{BodyFailure, failure_of};
use dt_base::{OutOfMemory, Text};
use dtdl_terms::Resolved;
use json_tree::Tree;
use rel_graph::Edge;
use std::alloc::Global;
use twin_value::{Relationship, read_rel};

/// Two texts.
fn texts(alloc: Global, first: &str, second: &str) -> Result<(Text, Text), OutOfMemory>
    ensures { IfOk result (λ t. t ≡ (first.now, second.now)) }
{
    let first = Text::from_str(alloc, first)?;
    let second = Text::from_str(alloc, second)?;
    Ok((first, second))
}

/// The same relationship with this name and target.
fn leading(
    alloc: Global,
    link: Relationship,
    name: &str,
    target: &str,
) -> Result<Relationship, OutOfMemory>
    ensures { IfOk result (λ l. l ≡ record { source = link.source; id = link.id; name = name.now; target = target.now; payload = link.payload }) }
{
    let Ok((name, target)) = texts(alloc, name, target) else {
        drop(link);
        return Err(OutOfMemory);
    };
    let Edge {
        source,
        id,
        name: named,
        target: led,
        payload,
    } = link;
    drop((named, led));
    Ok(Edge {
        source,
        id,
        name,
        target,
        payload,
    })
}

/// The relationship of this source, identifier, name and target for which a body stands, as the graph's definitions say of
/// each state that has the source's interface with these contents as a model. Fails by the refusal that names the body's
/// first breach, or for want of memory.
pub fn link_from_body(
    alloc: Global,
    source: &str,
    id: &str,
    name: &str,
    target: &str,
    tree: &Tree,
    resolved: &Resolved,
) -> Result<Relationship, BodyFailure>
    requires { HasDistinctKeys (view tree.now) }
    ensures link { (s : State) (i : Interface) → IsModelIn s i resolved.now → MatchResult result
        (λ link. HasNoBreach (IsLinkBreach (inherited (set_of s) i) (view tree.now)) × (link_view link ≡ link_for s i source.now id.now name.now target.now (view tree.now)))
        (FailsBy (BodyFault (IsLinkBreach (inherited (set_of s) i) (view tree.now)) (view tree.now))) }
    ensures kept { IfOk result (λ link. IsKeptLink (link_view link)) }
{
    match read_rel(alloc, source, id, tree, resolved) {
        Ok(link) => {
            let link = leading(alloc, link, name, target)?;
            Ok(link)
        }
        Err(end) => Err(failure_of(alloc, tree, end)),
    }
}
