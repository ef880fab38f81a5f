//! What a relationship carries.

ghost use Rattle.std.specs.Prelude.{◌≡◌, IfOk};
ghost use Rattle.graph_steps.specs.bodies.Kept.{link_view, IsKeptLink};
ghost use Rattle.graph_steps.specs.States.{link_value};
ghost use Rattle.json_tree.specs.View.{view};
ghost use Rattle.graph_steps.specs.held.Held.{link_of};

use crate::bodies::link_tree;
use dt_base::{OutOfMemory, Text};
use json_tree::Tree;
use rel_graph::Edge;
use std::alloc::Global;
use twin_value::Relationship;

/// The values of a relationship's properties, an object whose members are sorted at every depth, and how many bytes the text
/// of the whole relationship has.
#[derive(Debug, Drop)]
pub struct Stored {
    pub values: Tree,
    pub bytes: u64,
}

/// Two texts in memory of their own.
fn copies(alloc: Global, first: &Text, second: &Text) -> Result<(Text, Text), OutOfMemory>
    ensures { IfOk result (λ c. c ≡ (first.now, second.now)) }
{
    let first = first.copy(alloc)?;
    let second = second.copy(alloc)?;
    Ok((first, second))
}

/// The relationship in memory of its own.
fn whole_of(alloc: Global, link: &Edge<Stored>) -> Result<Relationship, OutOfMemory>
    ensures { IfOk result (λ whole. link_view whole ≡ link_of link.now) }
{
    let (source, target) = copies(alloc, &link.source, &link.target)?;
    let Ok((id, name)) = copies(alloc, &link.id, &link.name) else {
        drop((source, target));
        return Err(OutOfMemory);
    };
    let Ok(payload) = link.payload.values.copy(alloc) else {
        drop((source, id, name, target));
        return Err(OutOfMemory);
    };
    Ok(Edge {
        source,
        id,
        name,
        target,
        payload,
    })
}

/// The tree of a relationship, as it is printed. Fails only for want of memory.
pub fn stored_tree(alloc: Global, link: &Edge<Stored>) -> Result<Tree, OutOfMemory>
    requires { IsKeptLink (link_of link.now) }
    ensures { IfOk result (λ tree. view tree ≡ link_value (link_of link.now)) }
{
    let whole = whole_of(alloc, link)?;
    let tree = link_tree(alloc, &whole);
    drop(whole);
    tree
}
