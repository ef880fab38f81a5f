//! The second order of the edges, by target, source and id, and the counts by source and name.

ghost use Rattle.std.specs.Prelude.{◌≡◌, ◌+◌, ◌-◌, ℕ, List, [], Some, cond, IsSome, IfOk, OnOk, OnErr};
ghost use Rattle.std.specs.Ordering.{is_eq};
ghost use Rattle.std.specs.Map.{lookup};
ghost use Rattle.std.specs.BTreeMap.{is_at};
ghost use Rattle.rel_graph.specs.Edges.{key};
ghost use Rattle.rel_graph.specs.Slots.{tally, one_at, link, link_cmp};

use crate::counts::{add, lower};
use crate::edge::Edge;
use dt_base::{OutOfMemory, Text};
use ordered_table::Table;
use std::alloc::Global;

/// The slot of each edge under its target, source and id, and how many edges of a source have a name.
#[derive(Drop)]
pub struct Index {
    pub links: Table<(Text, Text), usize>,
    pub counts: Table<Text, u64>,
}

impl Index {
    /// The index of no edges, which takes no memory.
    pub fn new(alloc: Global) -> Index
        ensures links { result.links ≡ [] }
        ensures counts { result.counts ≡ [] }
    {
        Index {
            links: Table::new(alloc),
            counts: Table::new(alloc),
        }
    }

    /// Counts an edge and links it to its slot. Gives the slot that its link led to before.
    pub fn enter<P>(
        &mut self,
        alloc: Global,
        edge: &Edge<P>,
        slot: usize,
    ) -> Result<Option<usize>, OutOfMemory>
        ensures old { IfOk result (λ old. old ≡ lookup (is_at (link_cmp (link edge.now))) self.old.links) }
        ensures counts { OnOk result ((q : List ℕ × List ℕ) → tally self.new.counts q ≡ tally self.old.counts q + one_at (edge.now.source, edge.now.name) q) }
        ensures links { OnOk result ((q : List ℕ × (List ℕ × List ℕ)) → lookup (is_at (link_cmp q)) self.new.links ≡ cond (is_eq (link_cmp q (link edge.now))) (Some slot) (lookup (is_at (link_cmp q)) self.old.links)) }
        ensures err_counts { OnErr result ((q : List ℕ × List ℕ) → tally self.new.counts q ≡ tally self.old.counts q) }
        ensures err_links { OnErr result (self.new.links ≡ self.old.links) }
    {
        let source = edge.source.copy(alloc)?;
        let id = edge.id.copy(alloc)?;
        add(&mut self.counts, alloc, &edge.source, &edge.name)?;
        match self.links.insert(&edge.target, (source, id), slot) {
            Ok(old) => Ok(old),
            Err(_failed) => {
                lower(&mut self.counts, &edge.source, &edge.name);
                Err(OutOfMemory)
            }
        }
    }

    /// Counts an edge out, and has its link lead to a slot, or takes the link out. Takes no memory.
    pub fn leave<P>(&mut self, edge: Edge<P>, slot: Option<usize>) -> Edge<P>
        requires { IsSome slot → IsSome (lookup (is_at (link_cmp (link edge))) self.old.links) }
        ensures same { result ≡ edge }
        ensures counts { (q : List ℕ × List ℕ) → tally self.new.counts q ≡ tally self.old.counts q - one_at (edge.source, edge.name) q }
        ensures links { (q : List ℕ × (List ℕ × List ℕ)) → lookup (is_at (link_cmp q)) self.new.links ≡ cond (is_eq (link_cmp q (link edge))) slot (lookup (is_at (link_cmp q)) self.old.links) }
    {
        lower(&mut self.counts, &edge.source, &edge.name);
        let Edge {
            source,
            id,
            name,
            target,
            payload,
        } = edge;
        let key = (source, id);
        relink(&mut self.links, &target, &key, slot);
        let (source, id) = key;
        Edge {
            source,
            id,
            name,
            target,
            payload,
        }
    }
}

/// Has a link that is there lead to a slot, or takes the link out.
fn relink(
    links: &mut Table<(Text, Text), usize>,
    target: &Text,
    key: &(Text, Text),
    slot: Option<usize>,
)
    requires { IsSome slot → IsSome (lookup (is_at (link_cmp (target.now, key.now))) links.old) }
    ensures { (q : List ℕ × (List ℕ × List ℕ)) → lookup (is_at (link_cmp q)) links.new ≡ cond (is_eq (link_cmp q (target.now, key.now))) slot (lookup (is_at (link_cmp q)) links.old) }
{
    match slot {
        Some(slot) => links.set(target, key, slot),
        None => {
            let _slot = links.remove(target, key);
        }
    }
}
