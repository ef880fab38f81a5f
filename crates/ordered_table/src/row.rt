//! The entries under one text, in the order of their keys.

ghost use Rattle.std.specs.Prelude.{◌≡◌, ◌↔◌, List, [], ◌∷◌, slice_get, IfOk, OnOk, OnErr, IfErr, IsTrue};
ghost use Rattle.std.specs.Option.{option_copied, option_map};
ghost use Rattle.std.specs.List.{filter, cons_option};
ghost use Rattle.std.specs.Ordering.{is_lt};
ghost use Rattle.std.specs.Map.{lookup, remove_entry, set_value, keys_of};
ghost use Rattle.std.specs.Map.Iter.{deref_pair};
ghost use Rattle.std.specs.List.Sorted.{IsStrictlySortedBy};
ghost use Rattle.std.specs.BTreeMap.{is_at, insert_entry, IsOrdered};

use crate::entries::Entries;
use std::alloc::{AllocFailed, Global};
use std::collections::BTreeMap;
use std::marker::Model;
use std::ops::Bound;

/// Entries in the order of their keys, no two with one key, which contracts see as a list of pairs.
///
/// An entry that came to a row without entries is held in place, without a node of the map, until a second one comes.
#[derive(Drop)]
pub struct Row<K: Ord, V> {
    only: Option<(K, V)>,
    entries: BTreeMap<K, V>,
}

impl<K: Ord, V> Model for Row<K, V> {
    ghost use Rattle.std.specs.Prelude.{List};
    ghost use Rattle.std.specs.Coded.{coded_list, coded×};

    ghost Value = { List (K × V) };

    ghost coded = { coded_list (coded× K.code V.code) };

    ghost use Rattle.std.specs.Prelude.{◌≡◌, [], IsSome};
    ghost use Rattle.std.specs.List.{cons_option};

    ghost view = { λ r. cons_option r.only r.entries.entries };

    ghost invariant = { λ r. IsSome r.only → r.entries.entries ≡ [] };
}

impl<K: Ord, V> Row<K, V> {
    /// The row of one entry. Takes no memory.
    pub fn single(alloc: Global, key: K, value: V) -> Row<K, V>
        ensures entry { result ≡ (key, value) ∷ [] }
        ensures ordered { IsStrictlySortedBy K.cmp (keys_of result) }
    {
        Row {
            only: Some((key, value)),
            entries: BTreeMap::new(alloc),
        }
    }

    /// Whether there are no entries. Takes no memory.
    pub fn is_empty(&self) -> bool
        ensures { IsTrue result ↔ (self.now ≡ []) }
    {
        match &self.only {
            Some(_entry) => false,
            None => self.entries.is_empty(),
        }
    }

    /// What stands under a key. Takes no memory.
    pub fn get(&self, key: &K) -> Option<&V>
        ensures { option_copied result ≡ lookup (is_at (K.cmp key.now)) self.now }
    {
        match &self.only {
            Some(entry) => value_at(entry, key),
            None => self.entries.get(key),
        }
    }
}

impl<K: Ord, V> Row<K, V> {
    /// The entries, in the order of their keys. Takes no memory.
    pub fn entries(&self) -> Entries<'_, K, V>
        ensures { result ≡ self.now }
    {
        Entries {
            only: lent(&self.only),
            rest: self.entries.range(..),
        }
    }

    /// The entries whose keys are past a key, in the order of their keys. Takes no memory.
    pub fn entries_after(&self, key: &K) -> Entries<'_, K, V>
        ensures { result ≡ filter (λ e. is_lt (K.cmp key.now e.0)) self.now }
    {
        let only = match &self.only {
            Some(entry) => past(entry, key),
            None => None,
        };
        Entries {
            only,
            rest: self.entries.range((Bound::Excluded(key), Bound::Unbounded)),
        }
    }
}

/// The key and the value of an entry, where there is one.
fn lent<K, V>(only: &Option<(K, V)>) -> Option<(&K, &V)>
    ensures { option_map deref_pair result ≡ only.now }
{
    match only {
        Some((key, value)) => Some((key, value)),
        None => None,
    }
}

/// The value of an entry with this key.
fn value_at<'a, K: Ord, V>(entry: &'a (K, V), key: &K) -> Option<&'a V>
    ensures { option_copied result ≡ lookup (is_at (K.cmp key.now)) (entry.now ∷ []) }
{
    if key.cmp(&entry.0).is_eq() {
        Some(&entry.1)
    } else {
        None
    }
}

/// An entry whose key is past this key.
fn past<'a, K: Ord, V>(entry: &'a (K, V), key: &K) -> Option<(&'a K, &'a V)>
    ensures { cons_option (option_map deref_pair result) [] ≡ filter (λ e. is_lt (K.cmp key.now e.0)) (entry.now ∷ []) }
{
    if key.cmp(&entry.0).is_lt() {
        Some((&entry.0, &entry.1))
    } else {
        None
    }
}

impl<K: Ord + Drop, V: Drop> Row<K, V> {
    /// Puts a value under a key, and gives the one that was there. `Err` is want of memory: it hands the key and the value
    /// back, and nothing changes.
    pub fn insert(&mut self, key: K, value: V) -> Result<Option<V>, AllocFailed<(K, V)>>
        ensures old { IfOk result (λ old. old ≡ lookup (is_at (K.cmp key)) self.old) }
        ensures ok { OnOk result (self.new ≡ insert_entry K.cmp self.old key value) }
        ensures back { IfErr result (λ failed. failed.value ≡ (key, value)) }
        ensures err { OnErr result (self.new ≡ self.old) }
        ensures ordered { IsStrictlySortedBy K.cmp (keys_of self.new) }
    {
        let Some((own, held)) = self.only.take() else {
            if self.entries.is_empty() {
                self.only = Some((key, value));
                return Ok(None);
            }
            return self.entries.insert(key, value);
        };
        if key.cmp(&own).is_eq() {
            self.only = Some((own, value));
            return Ok(Some(held));
        }
        if let Err(failed) = self.entries.insert(own, held) {
            self.only = Some(failed.value);
            return Err(AllocFailed {
                value: (key, value),
            });
        }
        self.entries.insert(key, value)
    }

    /// Writes a value over the one under a key, where there is one. Takes no memory.
    pub fn set(&mut self, key: &K, value: V)
        ensures entries { self.new ≡ set_value (is_at (K.cmp key.now)) self.old value }
        ensures ordered { IsStrictlySortedBy K.cmp (keys_of self.new) }
    {
        match &mut self.only {
            Some(entry) => write(entry, key, value),
            None => write_in(&mut self.entries, key, value),
        }
    }

    /// Takes out what stands under a key, and gives it. Takes no memory.
    pub fn remove(&mut self, key: &K) -> Option<V>
        ensures value { result ≡ lookup (is_at (K.cmp key.now)) self.old }
        ensures entries { self.new ≡ remove_entry (is_at (K.cmp key.now)) self.old }
        ensures ordered { IsStrictlySortedBy K.cmp (keys_of self.new) }
    {
        let Some((own, value)) = self.only.take() else {
            return self.entries.remove(key);
        };
        if key.cmp(&own).is_eq() {
            return Some(value);
        }
        self.only = Some((own, value));
        None
    }

    /// The first entry, where there is one. Takes no memory.
    pub fn into_first(self) -> Option<(K, V)>
        ensures { result ≡ slice_get self 0 }
    {
        let Row { only, mut entries } = self;
        match only {
            Some(entry) => Some(entry),
            None => entries.pop_first(),
        }
    }
}

/// Writes a value over that of an entry, where it has this key.
fn write<K: Ord, V: Drop>(entry: &mut (K, V), key: &K, value: V)
    ensures { entry.new ∷ [] ≡ set_value (is_at (K.cmp key.now)) (entry.old ∷ []) value }
{
    if key.cmp(&entry.0).is_eq() {
        entry.1 = value;
    }
}

/// Writes a value over the one under a key of a map, where there is one.
fn write_in<K: Ord, V: Drop>(entries: &mut BTreeMap<K, V>, key: &K, value: V)
    ensures entries { entries.new.entries ≡ set_value (is_at (K.cmp key.now)) entries.old.entries value }
    ensures ordered { IsOrdered K.cmp entries.new }
{
    let Some(old) = entries.get_mut(key) else {
        return;
    };
    *old = value;
}
