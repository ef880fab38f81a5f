//! The edges of a graph.

ghost use Rattle.std.specs.Prelude.{◌≡◌, [], length, IfOk, IfErr, OnErr, OnOk};
ghost use Rattle.std.specs.Option.{option_copied};
ghost use Rattle.rel_graph.specs.Edges.{edge_at, with_edge, without_edge, out_of, into_of, out_past, into_past, named, EdgesInOrder};

use crate::counts::count_at;
use crate::edge::{Edge, PutEnd};
use crate::index::Index;
use crate::listing::{Into, Out};
use dt_base::Text;
use ordered_table::Table;
use slab::Slab;
use std::alloc::Global;
use std::marker::Model;

/// The edges of a graph, which contracts see as a list in the order of source and id, no two with both equal.
#[derive(Drop)]
pub struct Rels<P> {
    alloc: Global,
    len: u64,
    edges: Slab<Edge<P>>,
    order: Table<Text, usize>,
    index: Index,
}

impl<P> Model for Rels<P> {
    ghost use Rattle.std.specs.Prelude.{List};
    ghost use Rattle.rel_graph.specs.declared.edge.Edge.{Edge};

    ghost Value = { List (Edge P) };

    ghost use Rattle.std.specs.Map.{values_of};
    ghost use Rattle.slab.specs.Slab.{get};
    ghost use Rattle.rel_graph.specs.Slots.{edges_at, IsKept};

    ghost view = { λ r. edges_at (get r.edges) (values_of r.order) };

    ghost invariant = { λ r. IsKept (get r.edges) r.order r.index.links r.index.counts r.len };
}

impl<P: Drop> Rels<P> {
    /// No edges. Takes no memory.
    pub fn new(alloc: Global) -> Rels<P>
        ensures { result ≡ [] }
    {
        Rels {
            alloc,
            len: 0,
            edges: Slab::new(alloc),
            order: Table::new(alloc),
            index: Index::new(alloc),
        }
    }

    /// How many edges there are. Takes no memory.
    pub fn len(&self) -> u64
        ensures len { result ≡ length self.now }
        ensures ordered { EdgesInOrder self.now }
    {
        self.len
    }

    /// The edge of a source with an id. Takes no memory.
    pub fn get(&self, source: &Text, id: &Text) -> Option<&Edge<P>>
        ensures { option_copied result ≡ edge_at source.now id.now self.now }
    {
        match self.order.get(source, id) {
            Some(slot) => self.edges.get(*slot),
            None => None,
        }
    }

    /// The edges of a source, in the order of their ids. Takes no memory.
    pub fn out(&self, source: &Text) -> Out<'_, P>
        ensures { result ≡ out_of source.now self.now }
    {
        Out {
            edges: &self.edges,
            slots: self.order.row(source),
        }
    }

    /// The edges of a target, in the order of source and id. Takes no memory.
    pub fn into(&self, target: &Text) -> Into<'_, P>
        ensures { result ≡ into_of target.now self.now }
    {
        Into {
            edges: &self.edges,
            slots: self.index.links.row(target),
        }
    }

    /// The edges of a source whose ids are past an id, in the order of their ids. Takes no memory.
    pub fn out_after(&self, source: &Text, id: &Text) -> Out<'_, P>
        ensures { result ≡ out_past source.now id.now self.now }
    {
        Out {
            edges: &self.edges,
            slots: self.order.row_after(source, id),
        }
    }

    /// The edges of a target that are past a source and an id, in the order of source and id. Takes no memory.
    pub fn into_after(&self, target: &Text, source_and_id: &(Text, Text)) -> Into<'_, P>
        ensures { result ≡ into_past target.now source_and_id.now self.now }
    {
        Into {
            edges: &self.edges,
            slots: self.index.links.row_after(target, source_and_id),
        }
    }

    /// How many edges of a source have a name. Takes no memory.
    pub fn count(&self, source: &Text, name: &Text) -> u64
        ensures { result ≡ named source.now name.now self.now }
    {
        count_at(&self.index.counts, source, name)
    }

    /// Puts an edge at its place, and gives the one with its source and id that was there.
    ///
    /// `Err` is want of memory: it hands the edge back, and nothing changes.
    pub fn put(&mut self, edge: Edge<P>) -> Result<Option<Edge<P>>, PutEnd<P>>
        ensures old { IfOk result (λ old. old ≡ edge_at edge.source edge.id self.old) }
        ensures ok { OnOk result (self.new ≡ with_edge edge self.old) }
        ensures back { IfErr result (λ end. end.back ≡ edge) }
        ensures err { OnErr result (self.new ≡ self.old) }
    {
        if self.len == u64::MAX {
            return Err(PutEnd { back: edge });
        }
        let Ok(id) = edge.id.copy(self.alloc) else {
            return Err(PutEnd { back: edge });
        };
        let Ok(()) = self.edges.reserve(1) else {
            return Err(PutEnd { back: edge });
        };
        let slot = self.edges.vacant_key();
        let Ok(link) = self.index.enter(self.alloc, &edge, slot) else {
            return Err(PutEnd { back: edge });
        };
        match self.order.insert(&edge.source, id, slot) {
            Ok(None) => {
                let _slot = self.edges.insert_reserved(edge);
                self.len += 1;
                Ok(None)
            }
            Ok(Some(place)) => {
                let _slot = self.edges.insert_reserved(edge);
                let old = self.edges.remove(place);
                let kept = link.and(Some(slot));
                Ok(Some(self.index.leave(old, kept)))
            }
            Err(_failed) => Err(PutEnd {
                back: self.index.leave(edge, link),
            }),
        }
    }

    /// Takes out the edge of a source with an id, and gives it. Takes no memory.
    pub fn remove(&mut self, source: &Text, id: &Text) -> Option<Edge<P>>
        ensures value { result ≡ edge_at source.now id.now self.old }
        ensures edges { self.new ≡ without_edge source.now id.now self.old }
    {
        let Some(slot) = self.order.remove(source, id) else {
            return None;
        };
        let edge = self.edges.remove(slot);
        self.len = self.len.saturating_sub(1);
        Some(self.index.leave(edge, None))
    }
}
