//! A plain table of edges is the definition's program: it is run beside `Rels`, and each call answers alike.

use dt_base::{OutOfMemory, Text};
use rel_graph::{Edge, Listing, Rels};
use std::alloc::Global;
use std::test::Fail;

/// How many steps are taken.
const STEPS: u64 = 3_000;

/// The sources, ids, names and targets in the order of their bytes, of which some begin others.
const TEXTS: [&str; 5] = ["", "a", "aa", "b", "é"];

/// What is told of an edge: which of the texts stand in it, and its payload.
#[derive(Clone, Copy)]
struct Row {
    source: usize,
    id: usize,
    name: usize,
    target: usize,
    payload: u64,
}

impl Row {
    /// Where the row stands in a table of all sources and ids in their order.
    fn place(&self) -> usize {
        self.source.wrapping_mul(TEXTS.len()).wrapping_add(self.id)
    }

    /// Whether this is told of the edge, in each part.
    fn is_of(&self, edge: &Edge<u64>) -> bool {
        edge.source.as_str() == text(self.source)
            && edge.id.as_str() == text(self.id)
            && edge.name.as_str() == text(self.name)
            && edge.target.as_str() == text(self.target)
            && edge.payload == self.payload
    }
}

/// One of the texts.
fn text(k: usize) -> &'static str {
    match TEXTS.get(k) {
        Some(text) => text,
        None => "",
    }
}

/// The row of each source and id in their order, or none.
type Plain = [Option<Row>; 25];

fn row_at(plain: &Plain, place: usize) -> Option<Row> {
    match plain.get(place) {
        Some(row) => *row,
        None => None,
    }
}

/// Puts a row or none at a place, and gives the one back that stood there.
fn set(plain: &mut Plain, place: usize, row: Option<Row>) -> Option<Row> {
    let old = row_at(plain, place);
    if let Some(slot) = plain.get_mut(place) {
        *slot = row;
    }
    old
}

/// A number that looks like chance, below a limit.
fn chance(state: &mut u64, limit: u64) -> u64 {
    *state = state
        .wrapping_mul(6_364_136_223_846_793_005)
        .wrapping_add(1_442_695_040_888_963_407);
    if limit == 0 {
        0
    } else {
        (*state >> 33) % limit
    }
}

fn draw(state: &mut u64) -> Row {
    Row {
        source: chance(state, 5) as usize,
        id: chance(state, 5) as usize,
        name: chance(state, 5) as usize,
        target: chance(state, 5) as usize,
        payload: chance(state, 1_000),
    }
}

/// Both of two texts, where both were made.
fn both(alloc: Global, first: usize, second: usize) -> Result<(Text, Text), OutOfMemory> {
    let first = Text::from_str(alloc, text(first))?;
    match Text::from_str(alloc, text(second)) {
        Ok(second) => Ok((first, second)),
        Err(_) => {
            drop(first);
            Err(OutOfMemory)
        }
    }
}

fn edge_of(alloc: Global, row: Row) -> Result<Edge<u64>, OutOfMemory> {
    let key = both(alloc, row.source, row.id)?;
    let Ok((name, target)) = both(alloc, row.name, row.target) else {
        drop(key);
        return Err(OutOfMemory);
    };
    let (source, id) = key;
    Ok(Edge {
        source,
        id,
        name,
        target,
        payload: row.payload,
    })
}

/// Whether both have the same edge, or both none.
fn is_same(edge: Option<&Edge<u64>>, row: Option<Row>) -> bool {
    match (edge, row) {
        (Some(edge), Some(row)) => row.is_of(edge),
        (None, None) => true,
        _ => false,
    }
}

/// Which edges a listing gives: those of a source or of a target, and of these the ones past a place.
#[derive(Clone, Copy)]
struct Listed {
    source: Option<usize>,
    target: Option<usize>,
    past: Option<usize>,
}

impl Listed {
    fn has(&self, row: &Row) -> bool {
        let is_past = match self.past {
            Some(place) => row.place() > place,
            None => true,
        };
        is_past && is_wanted(self.source, row.source) && is_wanted(self.target, row.target)
    }
}

/// Whether a text is the one that is wanted, or any is.
fn is_wanted(wanted: Option<usize>, text: usize) -> bool {
    match wanted {
        Some(wanted) => wanted == text,
        None => true,
    }
}

/// Whether the next edge of a listing is this one, or there is none.
fn gives_next<K>(listing: &mut Listing<'_, K, u64>, row: Option<Row>) -> bool {
    is_same(listing.next(), row)
}

/// Whether a listing gives the edges that it should, and no more.
fn gives<K>(listing: &mut Listing<'_, K, u64>, plain: &Plain, listed: Listed) -> bool {
    for row in plain {
        if let Some(row) = row {
            if listed.has(row) && !gives_next(listing, Some(*row)) {
                return false;
            }
        }
    }
    gives_next(listing, None)
}

fn are_out_alike(rels: &Rels<u64>, plain: &Plain, some: &Edge<u64>, row: Row) -> bool {
    let all = Listed {
        source: Some(row.source),
        target: None,
        past: None,
    };
    let further = Listed {
        past: Some(row.place()),
        ..all
    };
    gives(&mut rels.out(&some.source), plain, all)
        && gives(&mut rels.out_after(&some.source, &some.id), plain, further)
}

fn are_into_alike(
    rels: &Rels<u64>,
    plain: &Plain,
    target: &Text,
    key: &(Text, Text),
    row: Row,
) -> bool {
    let all = Listed {
        source: None,
        target: Some(row.target),
        past: None,
    };
    let further = Listed {
        past: Some(row.place()),
        ..all
    };
    gives(&mut Rels::into(rels, target), plain, all)
        && gives(&mut rels.into_after(target, key), plain, further)
}

/// Whether both have as many edges, and as many of a source and name.
fn are_counts_alike(rels: &Rels<u64>, plain: &Plain, some: &Edge<u64>, other: Row) -> bool {
    let mut all: u64 = 0;
    let mut named: u64 = 0;
    for row in plain {
        if let Some(row) = row {
            all = all.saturating_add(1);
            if row.source == other.source && row.name == other.name {
                named = named.saturating_add(1);
            }
        }
    }
    rels.len() == all && rels.count(&some.source, &some.name) == named
}

/// Whether each answer about the texts of an edge is that of the table.
fn is_alike(rels: &Rels<u64>, plain: &Plain, some: Edge<u64>, row: Row) -> bool {
    let edge = rels.get(&some.source, &some.id);
    let is_alike = is_same(edge, row_at(plain, row.place()))
        && are_counts_alike(rels, plain, &some, row)
        && are_out_alike(rels, plain, &some, row);
    let Edge {
        source,
        id,
        name,
        target,
        payload: _,
    } = some;
    let key = (source, id);
    let are_into_alike = are_into_alike(rels, plain, &target, &key, row);
    drop((key, (name, target)));
    is_alike && are_into_alike
}

/// Takes an edge out of both, and tells whether both gave the same edge back.
fn remove_alike(rels: &mut Rels<u64>, plain: &mut Plain, edge: Edge<u64>, row: Row) -> bool {
    let removed = rels.remove(&edge.source, &edge.id);
    let is_alike = is_same(removed.as_ref(), set(plain, row.place(), None));
    drop((edge, removed));
    is_alike
}

/// Puts one edge into both, and tells whether both gave the same edge back.
fn put_alike(rels: &mut Rels<u64>, plain: &mut Plain, edge: Edge<u64>, row: Row) -> bool {
    let put = rels.put(edge);
    let is_alike = match &put {
        Ok(old) => is_same(old.as_ref(), set(plain, row.place(), Some(row))),
        Err(_) => false,
    };
    drop(put);
    is_alike
}

/// Takes an edge out of both or puts one into both, and tells whether both answer alike.
fn step(
    alloc: Global,
    rels: &mut Rels<u64>,
    plain: &mut Plain,
    state: &mut u64,
) -> Result<bool, OutOfMemory> {
    let row = draw(state);
    let edge = edge_of(alloc, row)?;
    let is_changed_alike = if chance(state, 3) == 0 {
        remove_alike(rels, plain, edge, row)
    } else {
        put_alike(rels, plain, edge, row)
    };
    let row = draw(state);
    let some = edge_of(alloc, row)?;
    Ok(is_alike(rels, plain, some, row) && is_changed_alike)
}

/// How many steps both answer alike, one after another.
fn steps(alloc: Global, rels: &mut Rels<u64>) -> Result<u64, OutOfMemory> {
    let mut plain = [None; 25];
    let mut state = 7;
    for taken in 0..STEPS {
        if !step(alloc, rels, &mut plain, &mut state)? {
            return Ok(taken);
        }
    }
    Ok(STEPS)
}

#[test]
fn answers_as_a_plain_table_does(rt: HostRuntime) -> Result<(), Fail> {
    let mut rels = Rels::new(rt.alloc());
    let steps = steps(rt.alloc(), &mut rels);
    drop(rels);
    assert!(rt; steps? == STEPS);
    Ok(())
}
