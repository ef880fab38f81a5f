//! The ids of one model.

ghost use Rattle.std.specs.Prelude.{◌≡◌, ◌↔◌, [], length, IsTrue, OnErr, OnOk};
ghost use Rattle.std.specs.Ordering.{nat_cmp};
ghost use Rattle.std.specs.Cmp.Lexicographic.{slice_cmp};
ghost use Rattle.std.specs.List.Sorted.{IsStrictlySortedBy};
ghost use Rattle.std.specs.Map.{keys_of, remove_entry};
ghost use Rattle.std.specs.BTreeMap.{is_at, insert_entry};

use dt_base::{OutOfMemory, Text};
use std::alloc::Global;
use std::collections::BTreeMap;
use std::collections::btree_map::Range;
use std::marker::Model;

/// Ids in the order of their bytes, no two equal, which contracts see as a list of entries without values.
#[derive(Drop)]
pub struct Ids {
    entries: BTreeMap<Text, ()>,
}

impl Model for Ids {
    ghost use Rattle.std.specs.Prelude.{List, ℕ};

    ghost Value = { List (List ℕ × Unit {0}) };

    ghost use Rattle.std.specs.BTreeMap.{IsOrdered};
    ghost use Rattle.std.specs.Ordering.{nat_cmp};
    ghost use Rattle.std.specs.Cmp.Lexicographic.{slice_cmp};

    ghost view = { λ i. i.entries.entries };

    ghost invariant = { λ i. IsOrdered (slice_cmp nat_cmp) i.entries };
}

impl Ids {
    /// No ids. Takes no memory.
    pub fn new(alloc: Global) -> Ids
        ensures { result ≡ [] }
    {
        Ids {
            entries: BTreeMap::new(alloc),
        }
    }

    /// Whether there are no ids. Takes no memory.
    pub fn is_empty(&self) -> bool
        ensures { IsTrue result ↔ (self.now ≡ []) }
    {
        self.entries.is_empty()
    }

    /// How many ids there are. Takes no memory.
    pub fn len(&self) -> u64
        ensures len { result ≡ length self.now }
        ensures ordered { IsStrictlySortedBy (slice_cmp nat_cmp) (keys_of self.now) }
    {
        self.entries.len() as u64
    }

    /// The ids, in their order. Takes no memory.
    pub fn entries(&self) -> Range<'_, Text, ()>
        ensures ids { result ≡ self.now }
        ensures ordered { IsStrictlySortedBy (slice_cmp nat_cmp) (keys_of self.now) }
    {
        self.entries.range(..)
    }

    /// Puts an id at its place. `Err` is want of memory: nothing changes.
    pub fn insert(&mut self, id: Text) -> Result<(), OutOfMemory>
        ensures ok { OnOk result (self.new ≡ insert_entry (slice_cmp nat_cmp) self.old id tt) }
        ensures err { OnErr result (self.new ≡ self.old) }
    {
        self.entries.insert(id, ())?;
        Ok(())
    }

    /// Takes out an id. Takes no memory.
    pub fn remove(&mut self, id: &Text)
        ensures entries { self.new ≡ remove_entry (is_at (slice_cmp nat_cmp id.now)) self.old }
        ensures ordered { IsStrictlySortedBy (slice_cmp nat_cmp) (keys_of self.old) }
    {
        let _there = self.entries.remove(id);
    }
}
