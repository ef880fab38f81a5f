//! The edges of one source, and of one target.

ghost use Rattle.std.specs.Iterator.{YieldsFirstRef, item_count};
ghost use Rattle.std.specs.Map.{values_of};
ghost use Rattle.slab.specs.Slab.{get};
ghost use Rattle.rel_graph.specs.Slots.{edges_at};

use crate::edge::Edge;
use dt_base::Text;
use ordered_table::Entries;
use slab::Slab;
use std::marker::Model;

/// The edges of one source, in the order of their ids.
pub type Out<'a, P> = Listing<'a, Text, P>;

/// The edges of one target, in the order of source and id.
pub type Into<'a, P> = Listing<'a, (Text, Text), P>;

/// Edges in the order of a key, of which each is found without looking at others.
#[derive(Drop)]
pub struct Listing<'a, K, P> {
    pub(crate) edges: &'a Slab<Edge<P>>,
    pub(crate) slots: Option<Entries<'a, K, usize>>,
}

impl<'a, K, P> Model for Listing<'a, K, P> {
    ghost use Rattle.std.specs.Prelude.{List};
    ghost use Rattle.rel_graph.specs.declared.edge.Edge.{Edge};

    ghost Value = { List (Edge P) };

    ghost use Rattle.std.specs.Prelude.{[], unwrap_or};
    ghost use Rattle.std.specs.Map.{values_of};
    ghost use Rattle.slab.specs.Slab.{get};
    ghost use Rattle.rel_graph.specs.Slots.{edges_at};

    ghost view = { λ l. edges_at (get l.edges.now) (values_of (unwrap_or l.slots [])) };
}

/// The edge of the next slot that has one.
fn next_edge<'a, K, P>(
    edges: &'a Slab<Edge<P>>,
    slots: &mut Entries<'a, K, usize>,
) -> Option<&'a Edge<P>>
    ensures { YieldsFirstRef (λ s. edges_at (get edges.now) (values_of s)) slots.old result slots.new }
{
    while let Some((_, slot)) = slots.next() {
        if let Some(edge) = edges.get(*slot) {
            return Some(edge);
        }
    }
    None
}

impl<'a, K, P> Iterator for Listing<'a, K, P> {
    type Item = &'a Edge<P>;

    ghost next_gives = { YieldsFirstRef (λ s. s) };

    ghost remaining = { item_count (λ s. s) };

    fn next(&mut self) -> Option<&'a Edge<P>> {
        match &mut self.slots {
            Some(slots) => next_edge(self.edges, slots),
            None => None,
        }
    }
}
