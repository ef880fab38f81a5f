//! The driver of bench/queries: reads each line of the standard input, which it first takes into memory, as a query.
//!
//! `timed` lets it print how long that took.
#![tactic(auto)]

use anyhow::bail;
use dt_base::{StdSource, read_all};
use query_parse::{QueryFault, read};
use std::alloc::Global;
use std::env;
use std::time::Instant;

/// The most bytes that are read: 256 MiB.
const MOST_BYTES: usize = 268_435_456;

/// How many lines are queries, and how many are refused.
fn read_lines(alloc: Global, text: &str) -> anyhow::Result<(u64, u64)> {
    let mut queries: u64 = 0;
    let mut refused: u64 = 0;
    for line in text.lines() {
        match read(alloc, line) {
            Ok(_) => queries = queries.saturating_add(1),
            Err(QueryFault::OutOfMemory) => bail!("out of memory"),
            Err(_) => refused = refused.saturating_add(1),
        }
    }
    Ok((queries, refused))
}

fn main(rt: HostRuntime) -> anyhow::Result<()> {
    let mut timed = false;
    for word in env::args(&rt)?.skip(1) {
        timed = timed || word.as_str() == "timed";
    }
    let bytes = read_all(rt.alloc(), &mut StdSource::new(rt.stdin()), MOST_BYTES)?;
    let Ok(text) = String::from_utf8(bytes.items) else {
        bail!("the input is no UTF-8");
    };
    let start = Instant::now(&rt)?;
    let (queries, refused) = read_lines(rt.alloc(), text.as_str())?;
    let took = start.elapsed(&rt)?;
    println!(rt; "queries {queries} refused {refused}")?;
    if timed {
        println!(rt; "nanoseconds {}", took.as_nanos())?;
    }
    Ok(())
}
