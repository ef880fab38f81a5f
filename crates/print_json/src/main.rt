//! The driver of bench/json: reads a JSON text from the standard input and prints it without white space.
//! It ends with status 0 where the text was printed whole.
#![tactic(auto)]

use dt_base::{StdSink, StdSource, read_all, write_all};
use json_read::read;
use json_tree::{Tree, print};
use std::alloc::Global;
use std::mem::forget;
use std::process::ExitCode;

/// The most bytes that are read: 256 MiB.
const MOST_BYTES: usize = 268_435_456;

/// The tree that the standard input spells. Its bytes are freed.
fn tree_of(rt: &HostRuntime, alloc: Global) -> Option<Tree> {
    let mut input = StdSource::new(rt.stdin());
    let bytes = read_all(alloc, &mut input, MOST_BYTES).ok()?;
    read(alloc, bytes.as_slice()).ok()
}

/// Prints the tree, and answers whether it was printed whole. The tree is left to the end of the process, as a
/// program does whose last work this is.
fn write_tree(rt: &HostRuntime, alloc: Global, tree: Tree) -> bool {
    let Ok(text) = print(alloc, &tree) else {
        return false;
    };
    forget(tree);
    write_all(&mut StdSink::new(rt.stdout()), text.as_bytes()).is_ok()
}

/// Reads and prints, and answers whether it was printed whole.
fn run(rt: &HostRuntime, alloc: Global) -> bool {
    match tree_of(rt, alloc) {
        Some(tree) => write_tree(rt, alloc, tree),
        None => false,
    }
}

fn main(rt: HostRuntime) -> ExitCode {
    if run(&rt, rt.alloc()) {
        ExitCode::SUCCESS
    } else {
        ExitCode::FAILURE
    }
}

#[cfg(test)]
mod tests;
