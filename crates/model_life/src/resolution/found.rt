//! Interfaces by their identifiers.

ghost use Rattle.std.specs.Prelude.{◌≡◌, [], Some, cond, map, IfOk, OnOk};
ghost use Rattle.std.specs.Option.{is_some};
ghost use Rattle.std.specs.Ordering.{is_eq};
ghost use Rattle.std.specs.Map.{values_of};
ghost use Rattle.dt_base.specs.names.Grammar.{Identifier, id_cmp};
ghost use Rattle.dtdl_terms.specs.Sets.{InOrder, interface_at};

use dt_base::OutOfMemory;
use dt_base::names::Dtmi;
use dtdl_terms::Interface;
use std::alloc::Global;
use std::collections::BTreeMap;
use std::marker::Model;

/// Interfaces that were found, no two of one identifier, which contracts see as their list in the order of the printed
/// bytes of the identifiers.
#[derive(Drop)]
pub struct Found<'a> {
    by_id: BTreeMap<&'a Dtmi, &'a Interface>,
}

impl<'a> Model for Found<'a> {
    ghost use Rattle.std.specs.Prelude.{List};
    ghost use Rattle.std.specs.Coded.{coded_list};
    ghost use Rattle.std.specs.BTreeMap.{IsOrdered};
    ghost use Rattle.dtdl_terms.specs.contracts.interface.Interface as interface;
    ghost use Rattle.dt_base.specs.names.Grammar.{id_cmp};
    ghost use Rattle.dtdl_terms.specs.declared.interface.Interface.{Interface};
    ghost use Rattle.model_life.specs.resolution.Machinery.Families.{interfaces_in, AreUnderTheirIds};

    ghost Value = { List Interface };

    ghost coded = { coded_list interface.the_row.coded };

    ghost view = { λ f. interfaces_in f.by_id.entries };

    ghost invariant = { λ f. IsOrdered (λ x y. id_cmp x.now y.now) f.by_id × AreUnderTheirIds f.by_id.entries };
}

impl<'a> Found<'a> {
    /// No interfaces.
    pub fn new(alloc: Global) -> Found<'a>
        ensures { result ≡ [] }
    {
        Found {
            by_id: BTreeMap::new(alloc),
        }
    }

    /// Whether there is one with an identifier.
    pub fn has(&self, id: &'a Dtmi) -> bool
        ensures { result ≡ is_some (interface_at id.now self.now) }
    {
        self.by_id.contains_key(&id)
    }

    /// Adds an interface, in place of one with its identifier.
    pub fn add(&mut self, interface: &'a Interface) -> Result<(), OutOfMemory>
        ensures { OnOk result ((id : Identifier) → interface_at id self.new ≡ cond (is_eq (id_cmp id interface.now.id)) (Some interface.now) (interface_at id self.old)) }
    {
        self.by_id.insert(&interface.id, interface)?;
        Ok(())
    }

    /// The interfaces in the order of their identifiers.
    pub fn list(&self, alloc: Global) -> Result<Vec<&'a Interface>, OutOfMemory>
        ensures each { IfOk result (λ list. map (λ i. i.now) list.items ≡ self.now) }
        ensures ordered { IfOk result (λ _. InOrder self.now) }
    {
        let list = values_of(alloc, &self.by_id)?;
        Ok(list)
    }
}

/// The values of a map, in the order of its keys.
fn values_of<K: Ord, V: Copy>(alloc: Global, map: &BTreeMap<K, V>) -> Result<Vec<V>, OutOfMemory>
    ensures { IfOk result (λ list. list.items ≡ values_of map.now.entries) }
{
    let mut list = Vec::with_capacity(alloc, map.len())?;
    let mut values = map.values();
    'values: while let Some(value) = values.next() {
        list.push(*value)?;
    }
    Ok(list)
}
