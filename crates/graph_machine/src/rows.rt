//! The rows of pages of relationships.

ghost use Rattle.std.specs.Prelude.{◌≡◌, map, take, IfOk};
ghost use Rattle.std.specs.List.{AllByRecursion};
ghost use Rattle.json_tree.specs.View.{view};
ghost use Rattle.graph_steps.specs.bodies.Kept.{IsKeptLink};
ghost use Rattle.graph_steps.specs.States.{link_value};
ghost use Rattle.graph_steps.specs.held.Held.{link_of};

use dt_base::OutOfMemory;
use graph_steps::held::{Stored, stored_tree};
use json_tree::Tree;
use rel_graph::Edge;
use std::alloc::Global;

/// How many rows a page has at most.
const MOST_ROWS: usize = 100;

/// The rows of a page that these relationships decide, which are the first hundred as they are printed. Fails only for want
/// of memory.
pub(crate) fn rows(alloc: Global, first: &[&Edge<Stored>]) -> Result<Vec<Tree>, OutOfMemory>
    requires { AllByRecursion (λ e. IsKeptLink (link_of e.now)) first.now }
    ensures { IfOk result (λ trees. map view trees.items ≡ take 100 (map (λ e. link_value (link_of e.now)) first.now)) }
{
    let mut trees = Vec::new(alloc);
    'edges: for edge in first {
        if trees.len() == MOST_ROWS {
            return Ok(trees);
        }
        trees.push(stored_tree(alloc, edge)?)?;
    }
    Ok(trees)
}
