//! Numbers under two texts.

ghost use Rattle.std.specs.Prelude.{◌≡◌, ◌+◌, ◌-◌, ℕ, List, OnOk, OnErr};
ghost use Rattle.rel_graph.specs.Slots.{tally, one_at};

use dt_base::{OutOfMemory, Text};
use ordered_table::Table;
use std::alloc::Global;

/// The number under two texts.
pub fn count_at(counts: &Table<Text, u64>, source: &Text, name: &Text) -> u64
    ensures { result ≡ tally counts.now (source.now, name.now) }
{
    match counts.get(source, name) {
        Some(count) => *count,
        None => 0,
    }
}

/// Counts one more.
pub fn add(
    counts: &mut Table<Text, u64>,
    alloc: Global,
    source: &Text,
    name: &Text,
) -> Result<(), OutOfMemory>
    ensures ok { OnOk result ((q : List ℕ × List ℕ) → tally counts.new q ≡ tally counts.old q + one_at (source.now, name.now) q) }
    ensures err { OnErr result (counts.new ≡ counts.old) }
{
    let count = count_at(counts, source, name);
    if count == u64::MAX {
        return Err(OutOfMemory);
    }
    if count == 0 {
        let copy = name.copy(alloc)?;
        counts.insert(source, copy, 1)?;
        return Ok(());
    }
    counts.set(source, name, count + 1);
    Ok(())
}

/// Counts one less, and takes no memory.
pub fn lower(counts: &mut Table<Text, u64>, source: &Text, name: &Text)
    ensures { (q : List ℕ × List ℕ) → tally counts.new q ≡ tally counts.old q - one_at (source.now, name.now) q }
{
    let count = count_at(counts, source, name);
    if count <= 1 {
        let _count = counts.remove(source, name);
        return;
    }
    counts.set(source, name, count - 1);
}
