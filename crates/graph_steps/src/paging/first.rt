//! The first entries of a listing.

ghost use Rattle.std.specs.Prelude.{◌≡◌, map, take, IfOk};
ghost use Rattle.std.specs.Option.{option_copied};
ghost use Rattle.std.specs.List.{filter};
ghost use Rattle.graph_steps.specs.paging.Rows.{is_edge_called};

use dt_base::{OutOfMemory, Text};
use rel_graph::{Edge, Listing};
use std::alloc::Global;

/// How many entries decide a page: those on it, and one that tells whether a token is given.
pub const DECIDING: usize = 101;

/// Whether an edge has the name that is asked for, where one is.
fn has_name<P>(edge: &Edge<P>, name: Option<&Text>) -> bool
    ensures { result ≡ is_edge_called (option_copied name.entry) edge.now }
{
    match name {
        Some(name) => edge.name == *name,
        None => true,
    }
}

/// The first edges of a listing with a name, or of any name, as many as decide a page. At most one edge past the last of
/// them is looked at. Fails only for want of memory.
pub fn first_called<'a, K, P>(
    alloc: Global,
    listing: Listing<'a, K, P>,
    name: Option<&Text>,
) -> Result<Vec<&'a Edge<P>>, OutOfMemory>
    ensures { IfOk result (λ first. map (λ e. e.now) first.items ≡ take 101 (filter (is_edge_called (option_copied name.entry)) listing.entry)) }
{
    let mut first = Vec::new(alloc);
    'edges: for edge in listing {
        if first.len() == DECIDING {
            return Ok(first);
        }
        if has_name(edge, name) {
            first.push(edge)?;
        }
    }
    Ok(first)
}
