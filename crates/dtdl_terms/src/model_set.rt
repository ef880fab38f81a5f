//! Sets of interfaces.

ghost use Rattle.std.specs.Prelude.{◌≡◌, [], None, length, slice_get, OnErr, OnOk};
ghost use Rattle.std.specs.Option.{option_copied};
ghost use Rattle.std.specs.Map.{values_of};
ghost use Rattle.std.specs.BTreeMap.{IsOrdered, insert_entry};
ghost use Rattle.dtdl_terms.specs.Sets.{keyed, InOrder, interface_at, with_interface, without_interface, next_past};

use crate::interface::Interface;
use dt_base::OutOfMemory;
use dt_base::names::Dtmi;
use std::alloc::Global;
use std::collections::BTreeMap;
use std::collections::btree_map::Range;
use std::marker::Model;
use std::ops::Bound;

/// A set of interfaces, no two of one identifier, which contracts see as their list in the order of the printed bytes
/// of the identifiers.
#[derive(Drop)]
pub struct ModelSet {
    alloc: Global,
    interfaces: BTreeMap<Dtmi, Interface>,
}

impl Model for ModelSet {
    ghost use Rattle.std.specs.Prelude.{List, ◌≡◌};
    ghost use Rattle.std.specs.Coded.{coded_list};
    ghost use Rattle.dtdl_terms.specs.contracts.interface.Interface as interface;
    ghost use Rattle.std.specs.Map.{values_of};
    ghost use Rattle.std.specs.BTreeMap.{IsOrdered};
    ghost use Rattle.dt_base.specs.names.Grammar.{id_cmp};
    ghost use Rattle.dtdl_terms.specs.declared.interface.Interface.{Interface};
    ghost use Rattle.dtdl_terms.specs.Sets.{keyed};

    ghost Value = { List Interface };

    ghost coded = { coded_list interface.the_row.coded };

    ghost view = { λ s. values_of s.interfaces.entries };

    ghost invariant = { λ s. IsOrdered id_cmp s.interfaces × (s.interfaces.entries ≡ keyed (values_of s.interfaces.entries)) };
}

impl ModelSet {
    /// The set without interfaces. Takes no memory.
    pub fn new(alloc: Global) -> ModelSet
        ensures { result ≡ [] }
    {
        ModelSet {
            alloc,
            interfaces: BTreeMap::new(alloc),
        }
    }

    /// How many interfaces there are. Takes no memory.
    pub fn len(&self) -> usize
        ensures len { result ≡ length self.now }
        ensures ordered { InOrder self.now }
    {
        self.interfaces.len()
    }

    /// The interface with an identifier. Takes no memory.
    pub fn get(&self, id: &Dtmi) -> Option<&Interface>
        ensures { option_copied result ≡ interface_at id.now self.now }
    {
        self.interfaces.get(id)
    }

    /// The interface with the least identifier past a given one, or with the least of all; `None` exactly where there is
    /// none. Takes no memory.
    pub fn after(&self, id: Option<&Dtmi>) -> Option<&Interface>
        ensures { option_copied result ≡ next_past (option_copied id.entry) self.now }
    {
        match id {
            Some(id) => first_of(
                self.interfaces
                    .range((Bound::Excluded(id), Bound::Unbounded)),
            ),
            None => first_of(self.interfaces.range(..)),
        }
    }

    /// The interfaces, each behind its identifier, in the order of these. Takes no memory.
    pub fn entries(&self) -> Range<'_, Dtmi, Interface>
        ensures { result ≡ keyed self.now }
    {
        self.interfaces.range(..)
    }

    /// Puts an interface at its place. `Err` is want of memory: nothing changes, and the interface is given up.
    pub fn insert(&mut self, interface: Interface) -> Result<(), OutOfMemory>
        requires { interface_at interface.id self.old ≡ None }
        ensures ok { OnOk result (self.new ≡ with_interface interface self.old) }
        ensures err { OnErr result (self.new ≡ self.old) }
    {
        let id = interface.id.copy(self.alloc)?;
        put(&mut self.interfaces, id, interface)?;
        Ok(())
    }

    /// Takes out the interface with an identifier, and gives it. Takes no memory.
    pub fn remove(&mut self, id: &Dtmi) -> Option<Interface>
        ensures value { result ≡ interface_at id.now self.old }
        ensures interfaces { self.new ≡ without_interface id.now self.old }
    {
        self.interfaces.remove(id)
    }
}

/// Puts a value under its key, in the place of one that is there. `Err` is want of memory: nothing changes, and key and
/// value are given up.
fn put<K: Ord + Drop, V: Drop>(
    map: &mut BTreeMap<K, V>,
    key: K,
    value: V,
) -> Result<(), OutOfMemory>
    ensures entries { OnOk result (map.new.entries ≡ insert_entry K.cmp map.old.entries key value) }
    ensures err { OnErr result (map.new.entries ≡ map.old.entries) }
    ensures ordered { IsOrdered K.cmp map.new }
{
    map.insert(key, value)?;
    Ok(())
}

/// The first interface that is left.
fn first_of<'a>(mut rest: Range<'a, Dtmi, Interface>) -> Option<&'a Interface>
    ensures { option_copied result ≡ slice_get (values_of rest.entry) 0 }
{
    match rest.next() {
        Some((_, interface)) => Some(interface),
        None => None,
    }
}
