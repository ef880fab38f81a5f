//! The measures of the schemas that an interface names.

ghost use Rattle.std.specs.Prelude.{◌≡◌, ◌<◌, ◌↔◌, ℕ, suc, false, map, length, IsTrue, IfOk, slice_set};
ghost use Rattle.json_tree.specs.View.{view, members_view};
ghost use Rattle.local_faults.specs.Machinery.Named.{schema_entries};
ghost use Rattle.local_faults.specs.Machinery.Measured.{AreMeasured};

use crate::index::Names;
use crate::measures::{Measure, measure_of};
use dt_base::OutOfMemory;
use json_tree::Tree;
use std::alloc::Global;

/// After so many rounds each level up to the greatest that is told apart is right.
const ROUNDS: usize = 6;

fn is_same(one: Measure, other: Measure) -> bool
    ensures { IsTrue result ↔ (one ≡ other) }
{
    one == other
}

/// Puts a measure into a table, and tells whether this, or what came before, changes it.
fn put(table: &mut [Measure], at: usize, measure: Measure, changed: bool) -> bool
    requires { at < length table.old }
    ensures after { table.new ≡ slice_set table.old at measure }
    ensures same { result ≡ false → (changed ≡ false) × (table.new ≡ table.old) }
{
    let old = table[at];
    if is_same(old, measure) {
        return changed;
    }
    table[at] = measure;
    true
}

/// Measures each entry anew by the table, and tells whether this changes the table.
fn round(names: &Names, entries: &[Tree], table: &mut [Measure]) -> bool
    requires entries { map view entries.now ≡ schema_entries (members_view names.now) }
    requires sized { length table.old ≡ length entries.now }
    ensures right { (n : ℕ) → AreMeasured (members_view names.now) n table.old → AreMeasured (members_view names.now) (suc n) table.new }
    ensures same { result ≡ false → table.new ≡ table.old }
{
    let mut changed = false;
    for (at, entry) in entries.iter().enumerate() {
        let measure = measure_of(names, table, entry);
        changed = put(table, at, measure, changed);
    }
    changed
}

/// Measures the entries until the table is right.
fn settle(names: &Names, entries: &[Tree], table: &mut [Measure])
    requires entries { map view entries.now ≡ schema_entries (members_view names.now) }
    requires sized { length table.old ≡ length entries.now }
    requires begun { AreMeasured (members_view names.now) 0 table.old }
    ensures { AreMeasured (members_view names.now) 6 table.new }
{
    for _round in 0..ROUNDS {
        if !round(names, entries, table) {
            return;
        }
    }
}

/// The measures of the entries of `schemas`.
pub fn measures_of(alloc: Global, names: &Names) -> Result<Vec<Measure>, OutOfMemory>
    ensures { IfOk result (λ table. AreMeasured (members_view names.now) 6 table.items) }
{
    let entries = names.entries();
    let mut table = vec![in alloc; Measure::least(); entries.len()]?;
    settle(names, entries, &mut table);
    Ok(table)
}
