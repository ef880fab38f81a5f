//! Entries in the order of a text and a key.

ghost use Rattle.std.specs.Prelude.{◌≡◌, [], ◌∷◌, true, Some, None, unwrap_or, IfOk, OnOk, OnErr, IfErr};
ghost use Rattle.std.specs.Option.{option_copied, option_map};
ghost use Rattle.std.specs.Ordering.{nat_cmp, is_lt};
ghost use Rattle.std.specs.Cmp.Lexicographic.{slice_cmp};
ghost use Rattle.std.specs.List.{filter, find};
ghost use Rattle.std.specs.Map.{lookup, remove_entry, set_value, keys_of};
ghost use Rattle.std.specs.List.Sorted.{IsStrictlySortedBy};
ghost use Rattle.std.specs.BTreeMap.{get, is_at, insert_entry, IsOrdered};
ghost use Rattle.ordered_table.specs.Rows.{pair_cmp, row_of, next_in, flat};

use crate::entries::Entries;
use crate::row::Row;
use dt_base::Text;
use std::alloc::{AllocFailed, Global};
use std::collections::BTreeMap;
use std::collections::btree_map::Range;
use std::marker::Model;
use std::ops::Bound;

/// Rows, each under a text, which contracts see as one list of entries whose keys are pairs, in their order.
#[derive(Drop)]
pub struct Table<K: Ord, V> {
    alloc: Global,
    rows: BTreeMap<Text, Row<K, V>>,
}

impl<K: Ord, V> Model for Table<K, V> {
    ghost use Rattle.std.specs.Prelude.{List, ℕ};
    ghost use Rattle.std.specs.Coded.{coded_list, coded×, coded_ℕ};

    ghost Value = { List ((List ℕ × K) × V) };

    ghost coded = { coded_list (coded× (coded× (coded_list coded_ℕ) K.code) V.code) };

    ghost use Rattle.std.specs.Ordering.{nat_cmp};
    ghost use Rattle.std.specs.Cmp.Lexicographic.{slice_cmp};
    ghost use Rattle.std.specs.List.{All};
    ghost use Rattle.std.specs.List.Sorted.{IsStrictlySortedBy};
    ghost use Rattle.std.specs.Map.{keys_of};
    ghost use Rattle.std.specs.BTreeMap.{IsOrdered, values};
    ghost use Rattle.ordered_table.specs.Rows.{flat};

    ghost view = { λ t. flat t.rows.entries };

    ghost invariant = { λ t. IsOrdered (slice_cmp nat_cmp) t.rows × All (λ row. IsStrictlySortedBy K.cmp (keys_of row)) (values t.rows) };
}

impl<K: Ord, V> Table<K, V> {
    /// The table without entries. Takes no memory.
    pub fn new(alloc: Global) -> Table<K, V>
        ensures { result ≡ [] }
    {
        Table {
            alloc,
            rows: BTreeMap::new(alloc),
        }
    }

    /// The entries under a text, in the order of their keys; `None` is as no entries. Takes no memory.
    pub fn row(&self, at: &Text) -> Option<Entries<'_, K, V>>
        ensures rest { unwrap_or result [] ≡ row_of at.now self.now }
        ensures ordered { IsStrictlySortedBy (pair_cmp K.cmp) (keys_of self.now) }
    {
        match self.rows.get(at) {
            Some(row) => Some(row.entries()),
            None => None,
        }
    }

    /// The entries under a text whose keys are past a key, in the order of their keys. Takes no memory.
    pub fn row_after(&self, at: &Text, key: &K) -> Option<Entries<'_, K, V>>
        ensures rest { unwrap_or result [] ≡ filter (λ e. is_lt (K.cmp key.now e.0)) (row_of at.now self.now) }
        ensures ordered { IsStrictlySortedBy (pair_cmp K.cmp) (keys_of self.now) }
    {
        match self.rows.get(at) {
            Some(row) => Some(row.entries_after(key)),
            None => None,
        }
    }

    /// The first entry that is past a text and a key. Takes no memory.
    pub fn after(&self, at: &Text, key: &K) -> Option<(&Text, &K, &V)>
        ensures { option_map (λ x. ((x.0.now, x.1.now), x.2.now)) result ≡ find (λ e. is_lt (pair_cmp K.cmp (at.now, key.now) e.0)) self.now }
    {
        match next_in_row(&self.rows, at, key) {
            Some(entry) => Some(entry),
            None => first_of(self.rows.range((Bound::Excluded(at), Bound::Unbounded))),
        }
    }

    /// What stands under a text and a key. Takes no memory.
    pub fn get(&self, at: &Text, key: &K) -> Option<&V>
        ensures { option_copied result ≡ lookup (is_at (pair_cmp K.cmp (at.now, key.now))) self.now }
    {
        match self.rows.get(at) {
            Some(row) => row.get(key),
            None => None,
        }
    }
}

/// The first entry of some rows, of which some may have no entries.
fn first_of<'a, K: Ord, V>(mut rows: Range<'a, Text, Row<K, V>>) -> Option<(&'a Text, &'a K, &'a V)>
    ensures { option_map (λ x. ((x.0.now, x.1.now), x.2.now)) result ≡ find (λ _. true) (flat rows.entry) }
{
    while let Some((text, row)) = rows.next() {
        if let Some((key, value)) = row.entries().next() {
            return Some((text, key, value));
        }
    }
    None
}

/// The first entry past a key in the row under a text, where there is one.
fn next_in_row<'a, K: Ord, V>(
    rows: &'a BTreeMap<Text, Row<K, V>>,
    at: &Text,
    key: &K,
) -> Option<(&'a Text, &'a K, &'a V)>
    ensures { option_map (λ x. ((x.0.now, x.1.now), x.2.now)) result ≡ next_in K.cmp at.now key.now (unwrap_or (get (slice_cmp nat_cmp) rows.now at.now) []) }
{
    match rows.get_key_value(at) {
        Some((text, row)) => match row.entries_after(key).next() {
            Some((next, value)) => Some((text, next, value)),
            None => None,
        },
        None => None,
    }
}

/// Whether there is a row under a text, and it has no entries.
fn is_hollow<K: Ord, V>(rows: &BTreeMap<Text, Row<K, V>>, at: &Text) -> bool
    ensures { result ≡ true → get (slice_cmp nat_cmp) rows.now at.now ≡ Some [] }
{
    match rows.get(at) {
        Some(row) => row.is_empty(),
        None => false,
    }
}

/// Takes out the row under a text.
fn give_up<K: Ord + Drop, V: Drop>(rows: &mut BTreeMap<Text, Row<K, V>>, at: &Text)
    ensures entries { rows.new.entries ≡ remove_entry (is_at (slice_cmp nat_cmp at.now)) rows.old.entries }
    ensures ordered { IsOrdered (slice_cmp nat_cmp) rows.new }
{
    let _row = rows.remove(at);
}

/// Puts a row of one entry under a text that has no row. `Err` is want of memory: it hands the entry back, and nothing changes.
fn open<K: Ord + Drop, V: Drop>(
    rows: &mut BTreeMap<Text, Row<K, V>>,
    alloc: Global,
    at: &Text,
    key: K,
    value: V,
) -> Result<Option<V>, AllocFailed<(K, V)>>
    ensures none { IfOk result (λ old. old ≡ None) }
    ensures ok { OnOk result (rows.new.entries ≡ insert_entry (slice_cmp nat_cmp) rows.old.entries at.now ((key, value) ∷ [])) }
    ensures back { IfErr result (λ failed. failed.value ≡ (key, value)) }
    ensures err { OnErr result (rows.new.entries ≡ rows.old.entries) }
    ensures ordered { IsOrdered (slice_cmp nat_cmp) rows.old → IsOrdered (slice_cmp nat_cmp) rows.new }
{
    let Ok(text) = at.copy(alloc) else {
        return Err(AllocFailed {
            value: (key, value),
        });
    };
    match rows.insert(text, Row::single(alloc, key, value)) {
        Ok(_row) => Ok(None),
        Err(failed) => {
            let (_text, row) = failed.value;
            Err(AllocFailed {
                value: row.into_first().unwrap(),
            })
        }
    }
}

impl<K: Ord + Drop, V: Drop> Table<K, V> {
    /// Puts a value under a text and a key, and gives the one that was there. `Err` is want of memory: it hands the key
    /// and the value back, and nothing changes.
    pub fn insert(&mut self, at: &Text, key: K, value: V) -> Result<Option<V>, AllocFailed<(K, V)>>
        ensures old { IfOk result (λ old. old ≡ lookup (is_at (pair_cmp K.cmp (at.now, key))) self.old) }
        ensures ok { OnOk result (self.new ≡ insert_entry (pair_cmp K.cmp) self.old (at.now, key) value) }
        ensures back { IfErr result (λ failed. failed.value ≡ (key, value)) }
        ensures err { OnErr result (self.new ≡ self.old) }
        ensures ordered { IsStrictlySortedBy (pair_cmp K.cmp) (keys_of self.old) }
    {
        let Some(row) = self.rows.get_mut(at) else {
            return open(&mut self.rows, self.alloc, at, key, value);
        };
        row.insert(key, value)
    }

    /// Takes out what stands under a text and a key, and tells whether the row may be given up.
    fn take(&mut self, at: &Text, key: &K) -> (Option<V>, bool)
        ensures value { result.0 ≡ lookup (is_at (pair_cmp K.cmp (at.now, key.now))) self.old }
        ensures entries { self.new ≡ remove_entry (is_at (pair_cmp K.cmp (at.now, key.now))) self.old }
        ensures ordered { IsStrictlySortedBy (pair_cmp K.cmp) (keys_of self.old) }
    {
        let Some(row) = self.rows.get_mut(at) else {
            return (None, false);
        };
        let value = row.remove(key);
        (value, row.is_empty())
    }

    /// Gives up the row under a text where it has no entries.
    fn close(&mut self, at: &Text)
        ensures { self.new ≡ self.old }
    {
        if is_hollow(&self.rows, at) {
            give_up(&mut self.rows, at);
        }
    }

    /// Takes out what stands under a text and a key, and gives it. Takes no memory.
    pub fn remove(&mut self, at: &Text, key: &K) -> Option<V>
        ensures value { result ≡ lookup (is_at (pair_cmp K.cmp (at.now, key.now))) self.old }
        ensures entries { self.new ≡ remove_entry (is_at (pair_cmp K.cmp (at.now, key.now))) self.old }
        ensures ordered { IsStrictlySortedBy (pair_cmp K.cmp) (keys_of self.old) }
    {
        let (value, may_close) = self.take(at, key);
        if may_close {
            self.close(at);
        }
        value
    }

    /// Writes a value over the one under a text and a key, where there is one. Takes no memory.
    pub fn set(&mut self, at: &Text, key: &K, value: V)
        ensures { self.new ≡ set_value (is_at (pair_cmp K.cmp (at.now, key.now))) self.old value }
    {
        let Some(row) = self.rows.get_mut(at) else {
            return;
        };
        row.set(key, value);
    }
}
