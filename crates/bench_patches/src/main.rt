//! The driver of bench/values for patches: reads a value and a patch from the standard input, each in a line,
//! applies the patch, and prints the patched value without white space.
//!
//! With an argument `ROUNDS` it applies the patch so many times and prints the least time in nanoseconds instead.
#![tactic(auto)]

ghost use Rattle.std.specs.Prelude.{All, IfOk};
ghost use Rattle.json_tree.specs.Values.{HasDistinctKeys};
ghost use Rattle.json_tree.specs.View.{view};
ghost use Rattle.twin_patch.specs.Operations.{change_of, BringsDistinctKeys};
ghost use Rattle.twin_patch.specs.declared.patch.Op.{Op};

use anyhow::bail;
use dt_base::{StdSource, Text, read_all};
use json_read::read;
use json_tree::{Tree, print};
use std::alloc::Global;
use std::env;
use std::time::{Clock, Instant};
use twin_patch::{Patch, PatchOf, apply, read_patch};

/// The most bytes that are read: 256 MiB.
const MOST_BYTES: usize = 268_435_456;

/// The value that a text spells, in which no object has two members of one key.
fn tree_of(alloc: Global, bytes: &[u8]) -> anyhow::Result<Tree>
    ensures { IfOk result (λ tree. HasDistinctKeys (view tree)) }
{
    let Ok(tree) = read(alloc, bytes) else {
        bail!("no JSON");
    };
    Ok(tree)
}

/// The patch of a twin that a text spells.
fn patch_of(alloc: Global, bytes: &[u8]) -> anyhow::Result<Patch>
    ensures { IfOk result (λ patch. All (λ (op : Op). BringsDistinctKeys (change_of op.kind)) patch.ops) }
{
    let tree = tree_of(alloc, bytes)?;
    let patch = read_patch(alloc, &tree, PatchOf::Twin);
    drop(tree);
    match patch {
        Ok(patch) => Ok(patch),
        Err(_) => bail!("no patch"),
    }
}

/// The least time that applying the patch took, in nanoseconds.
fn least(
    rt: &impl Clock,
    alloc: Global,
    tree: &Tree,
    patch: &Patch,
    rounds: u64,
) -> anyhow::Result<u128>
    requires distinct { HasDistinctKeys (view tree.now) }
    requires brought { All (λ (op : Op). BringsDistinctKeys (change_of op.kind)) patch.now.ops }
{
    let mut least = u128::MAX;
    for _ in 0..rounds {
        let start = Instant::now(rt)?;
        let patched = apply(alloc, tree, patch);
        let took = start.elapsed(rt);
        drop(patched?);
        let took = took?.as_nanos();
        if took < least {
            least = took;
        }
    }
    Ok(least)
}

/// The text of a tree without white space.
fn text_of(alloc: Global, tree: Tree) -> anyhow::Result<Text> {
    let text = print(alloc, &tree);
    drop(tree);
    Ok(text?)
}

/// Applies the patch, and prints what the arguments ask for.
fn run(rt: &HostRuntime, alloc: Global, tree: &Tree, patch: &Patch) -> anyhow::Result<()>
    requires distinct { HasDistinctKeys (view tree.now) }
    requires brought { All (λ (op : Op). BringsDistinctKeys (change_of op.kind)) patch.now.ops }
{
    match env::args(rt)?.skip(1).next() {
        Some(word) => {
            let rounds = word.as_str().parse::<u64>()?;
            println!(rt; "{}", least(rt, alloc, tree, patch, rounds)?)?;
        }
        None => {
            let text = text_of(alloc, apply(alloc, tree, patch)?)?;
            println!(rt; "{}", text.as_str())?;
        }
    }
    Ok(())
}

/// Reads a patch and applies it.
fn run_text(rt: &HostRuntime, alloc: Global, tree: &Tree, patch: &[u8]) -> anyhow::Result<()>
    requires { HasDistinctKeys (view tree.now) }
{
    let patch = patch_of(alloc, patch)?;
    let ran = run(rt, alloc, tree, &patch);
    drop(patch);
    ran
}

/// Reads the two lines and applies the patch.
fn run_lines(rt: &HostRuntime, alloc: Global, bytes: &[u8]) -> anyhow::Result<()> {
    let Some(end) = bytes.iter().position(|byte| *byte == b'\n') else {
        bail!("no second line");
    };
    let (first, second) = bytes.split_at(end);
    let tree = tree_of(alloc, first)?;
    let ran = run_text(rt, alloc, &tree, second);
    drop(tree);
    ran
}

fn main(rt: HostRuntime) -> anyhow::Result<()> {
    let bytes = read_all(rt.alloc(), &mut StdSource::new(rt.stdin()), MOST_BYTES)?;
    let ran = run_lines(&rt, rt.alloc(), bytes.as_slice());
    drop(bytes);
    ran
}
