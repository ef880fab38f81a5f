//! The lengths of keys, and conditions that are deeper than a stack of calls goes. What copies of queries equal is tried by the
//! program `query_lines`, which prints copies.

use dt_base::{List, OutOfMemory};
use query_terms::{Cond, Kind, Projection, Query};
use std::alloc::Global;
use std::test::Fail;

/// How many ids a key has of a query without joins.
fn ids_of_key(alloc: Global, select: Projection, relationships: bool) -> u32 {
    let query = Query {
        select,
        relationships,
        alias: None,
        joins: List::new(alloc),
        cond: None,
    };
    let len = query.key_len();
    drop(query);
    len
}

#[test]
fn counts_ids_of_keys(rt: HostRuntime) -> Result<(), Fail> {
    let alloc = rt.alloc();
    let ids = [
        ids_of_key(alloc, Projection::Count, false),
        ids_of_key(alloc, Projection::Count, true),
        ids_of_key(alloc, Projection::Star { top: None }, false),
        ids_of_key(alloc, Projection::Star { top: Some(3) }, true),
    ];
    assert!(rt; ids == [0, 0, 1, 2]);
    Ok(())
}

/// A condition on no path.
fn defined(alloc: Global) -> Result<Box<Cond>, OutOfMemory> {
    Ok(Box::new(alloc, Cond::Is(Kind::Defined, List::new(alloc)))?)
}

/// The condition, and one more.
fn longer(alloc: Global, chain: Box<Cond>) -> Result<Box<Cond>, OutOfMemory> {
    let Ok(more) = defined(alloc) else {
        drop(chain);
        return Err(OutOfMemory);
    };
    Ok(Box::new(alloc, Cond::And(chain, more))?)
}

/// So many conditions and one.
fn chain_of(alloc: Global, count: usize) -> Result<Box<Cond>, OutOfMemory> {
    let mut chain = defined(alloc)?;
    for _count in 0..count {
        chain = longer(alloc, chain)?;
    }
    Ok(chain)
}

/// Whether a copy of so many conditions and one is a conjunction.
fn copy_is_conjunction(alloc: Global, count: usize) -> Result<bool, Fail> {
    let chain = chain_of(alloc, count)?;
    let copy = chain.copy(alloc);
    let is_conjunction = matches!(&copy, Ok(Cond::And(_, _)));
    drop((chain, copy));
    Ok(is_conjunction)
}

#[test]
fn copies_and_lets_go_of_long_chains(rt: HostRuntime) -> Result<(), Fail> {
    assert!(rt; copy_is_conjunction(rt.alloc(), 100_000)?);
    Ok(())
}
