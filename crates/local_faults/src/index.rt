//! The schemas that an interface names.

ghost use Rattle.std.specs.Prelude.{◌≡◌, ℕ, List, None, Some, IfOk, OnOk, map, bytes_eq, if◌then◌else◌};
ghost use Rattle.std.specs.Option.{option_or};
ghost use Rattle.std.specs.Ordering.{nat_cmp};
ghost use Rattle.std.specs.Cmp.Lexicographic.{slice_cmp};
ghost use Rattle.std.specs.BTreeMap.{get_by};
ghost use Rattle.std.specs.List.{position};
ghost use Rattle.json_tree.specs.View.{view, members_view};
ghost use Rattle.local_rules.specs.Levels.{has_id};
ghost use Rattle.local_faults.specs.Machinery.Named.{IsIndex, schema_entries};

use crate::look::{entries_at, id_in};
use dt_base::OutOfMemory;
use json_tree::{Member, Tree};
use std::alloc::Global;
use std::collections::BTreeMap;
use std::marker::Model;

/// The members of an interface, and where its `schemas` first has each `@id`.
#[derive(Drop)]
pub struct Names<'a> {
    members: &'a [Member],
    index: BTreeMap<&'a str, usize>,
}

impl<'a> Model for Names<'a> {
    ghost use Rattle.std.specs.Prelude.{List};
    ghost use Rattle.json_tree.specs.declared.tree.Member.{Member};

    ghost Value = { List Member };

    ghost use Rattle.json_tree.specs.contracts.tree.Member as m;
    ghost use Rattle.std.specs.Coded.{coded_list, codes};

    ghost coded = { coded_list m.the_row.coded };

    ghost use Rattle.json_tree.specs.View.{members_view};
    ghost use Rattle.local_faults.specs.Machinery.Named.{IsIndex, schema_entries};

    ghost view = { λ s. s.members.now };

    ghost invariant = { λ s. IsIndex (schema_entries (members_view s.members.now)) s.index };
}

/// Where each `@id` first stands in a list.
fn index_of<'a>(alloc: Global, entries: &'a [Tree]) -> Result<BTreeMap<&'a str, usize>, OutOfMemory>
    ensures { IfOk result (λ index. IsIndex (map view entries.now) index) }
{
    let mut index = BTreeMap::new(alloc);
    for (at, entry) in entries.iter().enumerate() {
        add_entry(&mut index, entry, at)?;
    }
    Ok(index)
}

/// Notes the place of an entry whose `@id` has none yet.
fn add_entry<'a>(
    index: &mut BTreeMap<&'a str, usize>,
    entry: &'a Tree,
    at: usize,
) -> Result<(), OutOfMemory>
    ensures { OnOk result ((q : List ℕ) → get_by (λ k. slice_cmp nat_cmp q k.now) index.new
        ≡ option_or (get_by (λ k. slice_cmp nat_cmp q k.now) index.old) (if has_id q (view entry.now) then Some at else None)) }
{
    match id_in(entry) {
        Some(id) => add_id(index, id, at),
        None => Ok(()),
    }
}

/// Notes the place of an `@id` that has none yet.
fn add_id<'a>(
    index: &mut BTreeMap<&'a str, usize>,
    id: &'a str,
    at: usize,
) -> Result<(), OutOfMemory>
    ensures { OnOk result ((q : List ℕ) → get_by (λ k. slice_cmp nat_cmp q k.now) index.new
        ≡ option_or (get_by (λ k. slice_cmp nat_cmp q k.now) index.old) (if bytes_eq id.now q then Some at else None)) }
{
    if index.contains_key(id) {
        return Ok(());
    }
    index.insert(id, at)?;
    Ok(())
}

impl<'a> Names<'a> {
    /// The schemas that an interface with these members names.
    pub fn of(alloc: Global, members: &'a [Member]) -> Result<Names<'a>, OutOfMemory>
        ensures { IfOk result (λ names. names ≡ members.now) }
    {
        let index = index_of(alloc, entries_at(members, "schemas"))?;
        Ok(Names { members, index })
    }

    /// The entries of `schemas`.
    pub fn entries(&self) -> &'a [Tree]
        ensures { map view result.now ≡ schema_entries (members_view self.now) }
    {
        entries_at(self.members, "schemas")
    }

    /// The place of the first entry of `schemas` with this `@id`.
    pub fn position_of_id(&self, id: &str) -> Option<usize>
        ensures { result ≡ position (has_id id.now) (schema_entries (members_view self.now)) }
    {
        self.index.get(id).copied()
    }
}
