//! Takes each line of the standard input as a query, and prints on a line the printed form of a copy of it, or its refusal.
#![tactic(auto)]

use anyhow::bail;
use dt_base::{StdSource, read_all};
use query_parse::{QueryFault, read};
use query_terms::Query;
use query_text::text;
use std::alloc::Global;

/// The most bytes that are read: 256 MiB.
const MOST_BYTES: usize = 268_435_456;

/// The refusal's name, and its byte where it has one.
fn refusal_of(alloc: Global, fault: &QueryFault) -> anyhow::Result<String> {
    let printed = match fault {
        QueryFault::TooLong => String::from_str(alloc, "TooLong")?,
        QueryFault::Byte { at } => format!(in alloc; "Byte {at}")?,
        QueryFault::TooManyJoins => String::from_str(alloc, "TooManyJoins")?,
        QueryFault::StarWithJoin => String::from_str(alloc, "StarWithJoin")?,
        QueryFault::TwiceAlias { at } => format!(in alloc; "TwiceAlias {at}")?,
        QueryFault::UnknownAlias { at } => format!(in alloc; "UnknownAlias {at}")?,
        QueryFault::OutOfMemory => bail!("out of memory"),
    };
    Ok(printed)
}

/// The printed form of a copy of a query.
fn form_of(alloc: Global, query: &Query) -> anyhow::Result<String> {
    let Ok(copy) = query.copy(alloc) else {
        bail!("out of memory");
    };
    let Ok(printed) = text(alloc, &copy) else {
        bail!("out of memory");
    };
    Ok(String::from_str(alloc, printed.as_str())?)
}

/// The printed form of the query that the line is, or its refusal.
fn answer_of(alloc: Global, line: &str) -> anyhow::Result<String> {
    match read(alloc, line) {
        Ok(query) => form_of(alloc, &query),
        Err(fault) => refusal_of(alloc, &fault),
    }
}

fn main(rt: HostRuntime) -> anyhow::Result<()> {
    let bytes = read_all(rt.alloc(), &mut StdSource::new(rt.stdin()), MOST_BYTES)?;
    let Ok(lines) = String::from_utf8(bytes.items) else {
        bail!("the input is no UTF-8");
    };
    for line in lines.lines() {
        let answer = answer_of(rt.alloc(), line)?;
        println!(rt; "{answer}")?;
    }
    Ok(())
}
