//! The edges that are put: each from one twin to another, under a name and an id of its own.

use dt_base::{OutOfMemory, Text};
use rel_graph::Edge;
use std::alloc::Global;

/// How many edges there are for each twin.
const EDGES_EACH: u64 = 4;

/// The texts that edges share.
#[derive(Drop)]
pub struct Graph {
    /// The ids of the twins, which are the sources and the targets.
    pub twins: Vec<Text>,
    /// The names under which edges stand.
    pub names: Vec<Text>,
    /// Whether the edges come as those of a building that is loaded: the four of one twin after those of another, to twins
    /// close by. Else each leads from anywhere to anywhere.
    pub near: bool,
}

/// What an edge is looked up by.
#[derive(Drop)]
pub struct Query {
    /// The id of the twin from which it leads.
    pub source: Text,
    /// Its own id, of which its source has no other.
    pub id: Text,
}

impl Graph {
    /// The texts for so many edges, of which there are four for each twin. Fails only for want of memory.
    pub fn new(alloc: Global, edges: u64, near: bool) -> Result<Graph, OutOfMemory> {
        let twins = twins_of(alloc, edges / EDGES_EACH)?;
        let names = names_of(alloc)?;
        Ok(Graph { twins, names, near })
    }
}

/// The ids of so many twins. Fails only for want of memory.
fn twins_of(alloc: Global, count: u64) -> Result<Vec<Text>, OutOfMemory> {
    let mut twins = Vec::new(alloc);
    for k in 0..count {
        twins.push(Text::from_string(format!(in alloc; "twin-{k:07}")?))?;
    }
    Ok(twins)
}

/// The names of relationships. Fails only for want of memory.
fn names_of(alloc: Global) -> Result<Vec<Text>, OutOfMemory> {
    let mut names = Vec::new(alloc);
    for name in ["contains", "feeds", "controls", "isNextTo"] {
        names.push(Text::from_str(alloc, name)?)?;
    }
    Ok(names)
}

/// A number that looks like chance.
fn mixed(x: u64) -> u64 {
    let x = x.wrapping_add(0x9E37_79B9_7F4A_7C15);
    let x = (x ^ (x >> 30)).wrapping_mul(0xBF58_476D_1CE4_E5B9);
    let x = (x ^ (x >> 27)).wrapping_mul(0x94D0_49BB_1331_11EB);
    x ^ (x >> 31)
}

/// A copy of one of the texts, which the number decides. Fails for want of memory, and where there are no texts.
fn pick(alloc: Global, texts: &[Text], x: u64) -> Result<Text, OutOfMemory> {
    let count = texts.len() as u64;
    if count == 0 {
        return Err(OutOfMemory);
    }
    let text = &texts[(x % count) as usize];
    text.copy(alloc)
}

/// Which twin an edge leads from, which name it has, and which twin it leads to.
fn ends_of(graph: &Graph, k: u64) -> [u64; 3] {
    if graph.near {
        let from = k / EDGES_EACH;
        let turn = k % EDGES_EACH;
        return [from, turn, from.wrapping_add(1 + turn)];
    }
    let x = k.wrapping_mul(4);
    [mixed(x), mixed(x.wrapping_add(1)), mixed(x.wrapping_add(2))]
}

/// Both of two values, where both were made.
fn both<A, B>(a: Result<A, OutOfMemory>, b: Result<B, OutOfMemory>) -> Result<(A, B), OutOfMemory>
where
    A: Drop,
    B: Drop,
{
    let Ok(a) = a else {
        drop(b);
        return Err(OutOfMemory);
    };
    let Ok(b) = b else {
        drop(a);
        return Err(OutOfMemory);
    };
    Ok((a, b))
}

/// The id of the edge of a number. Fails only for want of memory.
fn id_of(alloc: Global, k: u64) -> Result<Text, OutOfMemory> {
    Ok(Text::from_string(format!(in alloc; "rel-{k:07}")?))
}

/// The edge of a number: equal ones for equal numbers. Fails as `pick` does.
pub fn edge_of(alloc: Global, graph: &Graph, k: u64) -> Result<Edge<u64>, OutOfMemory> {
    let [from, called, to] = ends_of(graph, k);
    let source_and_id = both(pick(alloc, &graph.twins, from), id_of(alloc, k));
    let name_and_target = both(
        pick(alloc, &graph.names, called),
        pick(alloc, &graph.twins, to),
    );
    let ((source, id), (name, target)) = both(source_and_id, name_and_target)?;
    let payload = mixed(k.wrapping_mul(4).wrapping_add(3));
    Ok(Edge {
        source,
        id,
        name,
        target,
        payload,
    })
}

/// So many edges, in the order of their numbers. Fails as `pick` does.
pub fn edges_of(alloc: Global, graph: &Graph, edges: u64) -> Result<Vec<Edge<u64>>, OutOfMemory> {
    let mut made = Vec::new(alloc);
    for k in 0..edges {
        made.push(edge_of(alloc, graph, k)?)?;
    }
    Ok(made)
}

/// What an edge is looked up by. Fails only for want of memory.
fn query_of(alloc: Global, edge: &Edge<u64>) -> Result<Query, OutOfMemory> {
    let (source, id) = both(edge.source.copy(alloc), edge.id.copy(alloc))?;
    Ok(Query { source, id })
}

/// What each of the edges is looked up by. Fails only for want of memory.
pub fn queries_of(alloc: Global, edges: &[Edge<u64>]) -> Result<Vec<Query>, OutOfMemory> {
    let mut queries = Vec::new(alloc);
    for edge in edges {
        queries.push(query_of(alloc, edge)?)?;
    }
    Ok(queries)
}
