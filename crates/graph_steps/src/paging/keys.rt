//! The tokens of pages of edges.

ghost use Rattle.std.specs.Prelude.{◌≡◌, ◌∷◌, [], map, IfOk};
ghost use Rattle.json_tree.specs.Values.{Json};
ghost use Rattle.rel_graph.specs.declared.edge.Edge.{Edge};
ghost use Rattle.graph_steps.specs.Pages.{token, token_of};
ghost use Rattle.graph_steps.specs.paging.Rows.{out_entry, into_entry};

use crate::paging::first::DECIDING;
use crate::paging::token::token_text;
use dt_base::{OutOfMemory, Text};
use rel_graph::Edge;
use std::alloc::Global;

/// The place of the last entry of a page that another one follows.
const LAST: usize = 99;

/// The token of the id of an edge.
fn id_token<P>(alloc: Global, edge: &Edge<P>) -> Result<Text, OutOfMemory>
    ensures { IfOk result (λ text. text ≡ token_of (edge.now.id ∷ [])) }
{
    let id = edge.id.copy(alloc)?;
    token_text(alloc, &[id])
}

/// The token of the source and the id of an edge.
fn source_token<P>(alloc: Global, edge: &Edge<P>) -> Result<Text, OutOfMemory>
    ensures { IfOk result (λ text. text ≡ token_of (edge.now.source ∷ edge.now.id ∷ [])) }
{
    let source = edge.source.copy(alloc)?;
    let id = edge.id.copy(alloc)?;
    token_text(alloc, &[source, id])
}

/// The token of the page of edges out of a vertex, of which these are the first that decide it: their keys are their ids.
/// `None` where no edge is past the page. Fails only for want of memory.
pub fn out_token<P>(alloc: Global, first: &[&Edge<P>]) -> Result<Option<Text>, OutOfMemory>
    ensures { IfOk result (λ next. (tree : Edge P → Json) → next ≡ token (map (λ e. out_entry tree e.now) first.now)) }
{
    if first.len() < DECIDING {
        return Ok(None);
    }
    let text = id_token(alloc, first[LAST])?;
    Ok(Some(text))
}

/// The token of the page of edges into a vertex, of which these are the first that decide it: their keys are their sources
/// and ids. `None` where no edge is past the page. Fails only for want of memory.
pub fn into_token<P>(alloc: Global, first: &[&Edge<P>]) -> Result<Option<Text>, OutOfMemory>
    ensures { IfOk result (λ next. (tree : Edge P → Json) → next ≡ token (map (λ e. into_entry tree e.now) first.now)) }
{
    if first.len() < DECIDING {
        return Ok(None);
    }
    let text = source_token(alloc, first[LAST])?;
    Ok(Some(text))
}
