//! The driver of bench/messages: reads the requests of a stream and answers each by the same reply, all in memory.
//!
//! The stream is the standard input. `timed` lets it print how long that took, and a number how many bytes each read
//! gives at most.
#![tactic(auto)]

use anyhow::{Context, bail};
use dt_base::{List, MemSink, MemSource, StdSource, read_all};
use http_ends::{Buffer, HttpEnd, Response, next_request, write_response};
use std::alloc::Global;
use std::env;
use std::time::Instant;

/// The most bytes that are read: 256 MiB.
const MOST_BYTES: usize = 268_435_456;

/// The size in bytes of each reply's body.
const BODY: usize = 100;

/// A source of the standard input, whose reads give at most this many bytes each, or as many as there is room for.
fn stream(rt: &HostRuntime, alloc: Global, piece: u64) -> anyhow::Result<MemSource> {
    let bytes = read_all(alloc, &mut StdSource::new(rt.stdin()), MOST_BYTES)?;
    let mut pieces = Vec::new(alloc);
    if piece > 0 {
        let reads = bytes.len() as u64 / piece;
        pieces.resize(reads.saturating_add(1) as usize, piece)?;
    }
    Ok(MemSource::new(bytes, List::new(alloc), List::from_vec(pieces)))
}

/// Answers each request, and gives how many there were.
fn answer_all(alloc: Global, source: &mut MemSource, sink: &mut MemSink) -> anyhow::Result<u64> {
    let mut body = Vec::new(alloc);
    body.resize(BODY, b'1')?;
    let reply = Response {
        status: 200,
        allow: None,
        body: List::from_vec(body),
    };
    let mut buffer = Buffer::new(alloc)?;
    for answered in 0..u64::MAX {
        match next_request(alloc, source, &mut buffer) {
            Ok(request) => write_response(alloc, sink, &reply, request.close, false)?,
            Err(HttpEnd::Closed) => return Ok(answered),
            Err(end) => bail!("after {answered} requests: {end}"),
        }
    }
    bail!("too many requests")
}

fn main(rt: HostRuntime) -> anyhow::Result<()> {
    let mut timed = false;
    let mut piece = 0;
    for word in env::args(&rt)?.skip(1) {
        if word.as_str() == "timed" {
            timed = true;
        } else {
            piece = word.as_str().parse::<u64>().context("the size of a piece")?;
        }
    }
    let mut source = stream(&rt, rt.alloc(), piece)?;
    let mut sink = MemSink::new(rt.alloc(), u64::MAX, List::new(rt.alloc()));
    let start = Instant::now(&rt)?;
    let answered = answer_all(rt.alloc(), &mut source, &mut sink)?;
    let took = start.elapsed(&rt)?;
    println!(rt; "requests {answered} replies {}", sink.taken().len())?;
    if timed {
        println!(rt; "nanoseconds {}", took.as_nanos())?;
    }
    Ok(())
}
