//! The driver of bench/values for edges: puts edges, looks each up, lists them by source and by target, counts them and
//! takes them out, and prints for each part a sum over what it met.
//!
//! With no argument it does so with few edges and prints the sums alone, which no timing changes. `EDGES` gives the number
//! of edges, and then each sum is followed by the part's time in nanoseconds. `EDGES near` does the same with edges in the
//! order in which those of a building are loaded. `EDGES hold` only puts the edges, each made when it is put, for a measure
//! of the memory that they take.
#![tactic(auto)]

mod graph;

use dt_base::OutOfMemory;
use graph::{Graph, Query, edge_of, edges_of, queries_of};
use rel_graph::{Edge, Rels};
use std::alloc::Global;
use std::env;
use std::time::{Clock, Instant};

/// The number of edges with no argument.
const FEW: u64 = 2_000;

/// Puts an edge. Fails only for want of memory.
fn put(rels: &mut Rels<u64>, edge: Edge<u64>) -> Result<(), OutOfMemory> {
    let put = rels.put(edge);
    let is_put = put.is_ok();
    drop(put);
    if is_put { Ok(()) } else { Err(OutOfMemory) }
}

/// Puts each edge, and answers how many there are then. Fails only for want of memory.
fn put_all(rels: &mut Rels<u64>, edges: Vec<Edge<u64>>) -> Result<u64, OutOfMemory> {
    for edge in edges {
        put(rels, edge)?;
    }
    Ok(rels.len())
}

/// Puts so many edges, each made when it is put, and answers how many there are then. Fails as `edge_of` does.
fn put_made(
    alloc: Global,
    rels: &mut Rels<u64>,
    graph: &Graph,
    edges: u64,
) -> Result<u64, OutOfMemory> {
    for k in 0..edges {
        put(rels, edge_of(alloc, graph, k)?)?;
    }
    Ok(rels.len())
}

/// Looks each edge up, and answers the sum of the payloads.
fn get_all(rels: &Rels<u64>, queries: &[Query]) -> u64 {
    let mut sum: u64 = 0;
    for query in queries {
        if let Some(edge) = rels.get(&query.source, &query.id) {
            sum = sum.wrapping_add(edge.payload);
        }
    }
    sum
}

/// Lists the edges of each source, and answers the sum of the payloads.
fn out_all(rels: &Rels<u64>, graph: &Graph) -> u64 {
    let mut sum: u64 = 0;
    for twin in &graph.twins {
        for edge in rels.out(twin) {
            sum = sum.wrapping_add(edge.payload);
        }
    }
    sum
}

/// Lists the edges of each target, and answers the sum of the payloads.
fn into_all(rels: &Rels<u64>, graph: &Graph) -> u64 {
    let mut sum: u64 = 0;
    for twin in &graph.twins {
        for edge in Rels::into(rels, twin) {
            sum = sum.wrapping_add(edge.payload);
        }
    }
    sum
}

/// Counts the edges of each source and name, and answers how many there are.
fn count_all(rels: &Rels<u64>, graph: &Graph) -> u64 {
    let mut sum: u64 = 0;
    for twin in &graph.twins {
        for name in &graph.names {
            sum = sum.wrapping_add(rels.count(twin, name));
        }
    }
    sum
}

/// Takes each edge out, and answers the sum of the payloads and of how many edges are left.
fn remove_all(rels: &mut Rels<u64>, queries: &[Query]) -> u64 {
    let mut sum: u64 = 0;
    for query in queries {
        let removed = rels.remove(&query.source, &query.id);
        if let Some(edge) = &removed {
            sum = sum.wrapping_add(edge.payload);
        }
        drop(removed);
    }
    sum.wrapping_add(rels.len())
}

/// Prints a part's sum, and its time since `start` where it is asked for; answers when the next part starts.
fn tell(
    rt: &(impl Print + Clock),
    part: &str,
    sum: u64,
    start: Instant,
    timed: bool,
) -> anyhow::Result<Instant> {
    let took = start.elapsed(rt)?;
    if timed {
        println!(rt; "{part} {sum} {}", took.as_nanos())?;
    } else {
        println!(rt; "{part} {sum}")?;
    }
    Ok(Instant::now(rt)?)
}

/// Runs the parts that leave the edges where they are, and prints each; answers when the next part starts.
fn run_reads(
    rt: &(impl Print + Clock),
    rels: &Rels<u64>,
    graph: &Graph,
    queries: &[Query],
    timed: bool,
) -> anyhow::Result<Instant> {
    let start = Instant::now(rt)?;
    let start = tell(rt, "get", get_all(rels, queries), start, timed)?;
    let start = tell(rt, "out", out_all(rels, graph), start, timed)?;
    let start = tell(rt, "into", into_all(rels, graph), start, timed)?;
    tell(rt, "count", count_all(rels, graph), start, timed)
}

/// Puts the edges, and prints how many there are.
fn run_put(
    rt: &(impl Print + Clock),
    rels: &mut Rels<u64>,
    edges: Vec<Edge<u64>>,
    timed: bool,
) -> anyhow::Result<Instant> {
    let start = Instant::now(rt);
    let sum = put_all(rels, edges)?;
    tell(rt, "put", sum, start?, timed)
}

/// Runs the parts one after another, and prints each.
fn run_parts(
    rt: &(impl Print + Clock),
    graph: &Graph,
    rels: &mut Rels<u64>,
    edges: Vec<Edge<u64>>,
    queries: &[Query],
    timed: bool,
) -> anyhow::Result<()> {
    let _next = run_put(rt, rels, edges, timed)?;
    let start = run_reads(rt, rels, graph, queries, timed)?;
    let sum = remove_all(rels, queries);
    let _end = tell(rt, "remove", sum, start, timed)?;
    Ok(())
}

/// Makes so many edges of a graph, and runs the parts with them.
fn run_on(
    rt: &(impl Print + Clock),
    alloc: Global,
    graph: &Graph,
    edges: u64,
    timed: bool,
) -> anyhow::Result<()> {
    let made = edges_of(alloc, graph, edges)?;
    let Ok(queries) = queries_of(alloc, made.as_slice()) else {
        drop(made);
        anyhow::bail!("no memory");
    };
    let mut rels = Rels::new(alloc);
    let ran = run_parts(rt, graph, &mut rels, made, queries.as_slice(), timed);
    drop((queries, rels));
    ran
}

/// Makes so many edges, and runs the parts with them.
fn run(
    rt: &(impl Print + Clock),
    alloc: Global,
    edges: u64,
    near: bool,
    timed: bool,
) -> anyhow::Result<()> {
    let graph = Graph::new(alloc, edges, near)?;
    let ran = run_on(rt, alloc, &graph, edges, timed);
    drop(graph);
    ran
}

/// Puts the edges, each made when it is put, and prints how many there are.
fn hold(rt: &impl Print, alloc: Global, edges: u64) -> anyhow::Result<()> {
    let graph = Graph::new(alloc, edges, false)?;
    let mut rels = Rels::new(alloc);
    let held = put_made(alloc, &mut rels, &graph, edges);
    drop((rels, graph));
    println!(rt; "held {}", held?)?;
    Ok(())
}

/// Does what the arguments ask for.
fn main(rt: HostRuntime) -> anyhow::Result<()> {
    let alloc = rt.alloc();
    let mut words = env::args(&rt)?.skip(1);
    let edges = match words.next() {
        Some(word) => word.as_str().parse::<u64>()?,
        None => return run(&rt, alloc, FEW, false, false),
    };
    match words.next() {
        Some(word) if word.as_str() == "hold" => hold(&rt, alloc, edges),
        Some(_) => run(&rt, alloc, edges, true, true),
        None => run(&rt, alloc, edges, false, true),
    }
}
