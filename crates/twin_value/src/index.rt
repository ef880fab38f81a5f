//! Items by their names, each looked up in logarithmic time, or one by one where they are few.

ghost use Rattle.std.specs.Prelude.{◌≡◌, ◌<◌, ℕ, List, Some, length, bytes_eq, if◌then◌else◌, IfOk, OnOk};
ghost use Rattle.std.specs.Option.{option_map, option_or};
ghost use Rattle.std.specs.List.{find};
ghost use Rattle.std.specs.Ordering.{nat_cmp};
ghost use Rattle.std.specs.Cmp.Lexicographic.{slice_cmp};
ghost use Rattle.std.specs.BTreeMap.{get_by};
ghost use Rattle.twin_value.specs.Named.{is_called};
ghost use Rattle.twin_value.specs.Machinery.Indexes.{IsIndexByName, is_there};

use dt_base::OutOfMemory;
use std::alloc::Global;
use std::collections::BTreeMap;
use std::marker::Model;

/// The most items that are looked at one by one, for which no order is made.
const FEW: usize = 8;

/// What may have a name.
pub trait Keyed {
    ghost use Rattle.std.specs.Prelude.{◌≡◌, ℕ, List, Option};
    ghost use Rattle.std.specs.Option.{option_map};

    ghost key_of: { Self → Option (List ℕ) };

    /// Its name.
    fn key(&self) -> Option<&str>
        ensures { option_map (λ t. t.now) result ≡ key_of self.now };
}

/// Items, and where each name leads, unless they are few.
#[derive(Drop)]
pub struct Index<'a, T: Keyed> {
    items: &'a [T],
    places: BTreeMap<&'a str, &'a T>,
}

impl<'a, T: Keyed> Model for Index<'a, T> {
    ghost use Rattle.std.specs.Prelude.{◌<◌, List, length};
    ghost use Rattle.std.specs.Coded.{coded_list};
    ghost use Rattle.twin_value.specs.Machinery.Indexes.{IsIndexByName};

    ghost Value = { List T };

    ghost coded = { coded_list T.code };

    ghost view = { λ i. i.items.now };

    ghost invariant = { λ i. 8 < length i.items.now → IsIndexByName T.key_of i.items.now i.places };
}

/// Where each name leads.
fn places_of<'a, T: Keyed>(
    alloc: Global,
    items: &'a [T],
) -> Result<BTreeMap<&'a str, &'a T>, OutOfMemory>
    ensures { IfOk result (λ places. IsIndexByName T.key_of items.now places) }
{
    let mut places = BTreeMap::new(alloc);
    for item in items {
        add_item(&mut places, item)?;
    }
    Ok(places)
}

/// Adds an item, unless an earlier one has its name.
fn add_item<'a, T: Keyed>(
    places: &mut BTreeMap<&'a str, &'a T>,
    item: &'a T,
) -> Result<(), OutOfMemory>
    ensures { OnOk result ((q : List ℕ) → option_map (λ x. x.now) (get_by (λ k. slice_cmp nat_cmp q k.now) places.new)
        ≡ option_or (option_map (λ x. x.now) (get_by (λ k. slice_cmp nat_cmp q k.now) places.old)) (is_there q (T.key_of item.now) item.now)) }
{
    match item.key() {
        Some(name) => add_name(places, name, item),
        None => Ok(()),
    }
}

/// Gives a name a value, in the place of the one that it may have.
pub fn put<'a, V: Drop>(
    values: &mut BTreeMap<&'a str, V>,
    name: &'a str,
    value: V,
) -> Result<(), OutOfMemory>
    ensures { OnOk result ((q : List ℕ) → get_by (λ k. slice_cmp nat_cmp q k.now) values.new
        ≡ (if bytes_eq name.now q then Some value else get_by (λ k. slice_cmp nat_cmp q k.now) values.old)) }
{
    let before = values.insert(name, value)?;
    drop(before);
    Ok(())
}

/// Adds a name, unless it is there.
fn add_name<'a, T>(
    places: &mut BTreeMap<&'a str, &'a T>,
    name: &'a str,
    item: &'a T,
) -> Result<(), OutOfMemory>
    ensures { OnOk result ((q : List ℕ) → option_map (λ x. x.now) (get_by (λ k. slice_cmp nat_cmp q k.now) places.new)
        ≡ option_or (option_map (λ x. x.now) (get_by (λ k. slice_cmp nat_cmp q k.now) places.old)) (is_there q (Some name.now) item.now)) }
{
    if places.contains_key(name) {
        return Ok(());
    }
    places.insert(name, item)?;
    Ok(())
}

/// Whether a name that there may be is this one.
fn is_called(key: Option<&str>, name: &str) -> bool
    ensures { result ≡ is_called name.now (option_map (λ t. t.now) key.entry) }
{
    match key {
        Some(key) => key == name,
        None => false,
    }
}

/// The first item of this name.
fn first_called<'a, T: Keyed>(items: &'a [T], name: &str) -> Option<&'a T>
    ensures { option_map (λ x. x.now) result ≡ find (λ x. is_called name.now (T.key_of x)) items.now }
{
    for item in items {
        if is_called(item.key(), name) {
            return Some(item);
        }
    }
    None
}

impl<'a, T: Keyed> Index<'a, T> {
    /// The index of items.
    pub fn of(alloc: Global, items: &'a [T]) -> Result<Index<'a, T>, OutOfMemory>
        ensures { IfOk result (λ index. index ≡ items.now) }
    {
        if items.len() <= FEW {
            let places = BTreeMap::new(alloc);
            return Ok(Index { items, places });
        }
        let places = places_of(alloc, items)?;
        Ok(Index { items, places })
    }

    /// The first item of this name.
    pub fn get(&self, name: &str) -> Option<&'a T>
        ensures { option_map (λ x. x.now) result ≡ find (λ x. is_called name.now (T.key_of x)) self.now }
    {
        if self.items.len() <= FEW {
            return first_called(self.items, name);
        }
        self.places.get(name).copied()
    }
}
