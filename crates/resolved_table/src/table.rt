//! What the interfaces of a set have with all that they inherit, kept as interfaces come and go.

ghost use Rattle.std.specs.Prelude.{◌≡◌, [], Some, IsSome, IfOk, OnOk, OnErr};
ghost use Rattle.std.specs.Option.{option_copied};
ghost use Rattle.std.specs.List.{AllByRecursion};
ghost use Rattle.std.specs.List.Sorted.{IsStrictlySortedBy};
ghost use Rattle.std.specs.Map.{remove_entry, keys_of};
ghost use Rattle.std.specs.BTreeMap.{is_at, insert_entry};
ghost use Rattle.dt_base.specs.names.Grammar.{id_cmp};
ghost use Rattle.dtdl_terms.specs.Distinct.{HasDeclaration};
ghost use Rattle.dtdl_terms.specs.Sets.{interface_at};
ghost use Rattle.dtdl_terms.specs.declared.interface.Interface.{Interface};
ghost use Rattle.dtdl_terms.specs.declared.resolved.Resolved.{Resolved};
ghost use Rattle.extend_resolve.specs.Breaches.{BreaksNoRule};
ghost use Rattle.model_life.specs.resolution.Resolving.{IsResolved, entry_at};
ghost use Rattle.resolved_table.specs.Tables.{ResolvesAll, ResolvesOthers};
ghost use Rattle.resolved_table.specs.Machinery.Without.{without};

use dt_base::OutOfMemory;
use dt_base::names::Dtmi;
use dtdl_terms::{ModelSet, Resolved};
use model_life::resolution::resolve;
use std::alloc::Global;
use std::collections::BTreeMap;
use std::marker::Model;

/// A finite map from identifiers to what the interfaces have with all that they inherit, which contracts see as the list
/// of its entries in the order of the printed bytes of the identifiers.
#[derive(Drop)]
pub struct Table {
    alloc: Global,
    entries: BTreeMap<Dtmi, Resolved>,
}

impl Model for Table {
    ghost use Rattle.std.specs.Prelude.{List};
    ghost use Rattle.std.specs.Coded.{coded_list, coded×};
    ghost use Rattle.std.specs.BTreeMap.{IsOrdered};
    ghost use Rattle.dt_base.specs.names.Grammar.{Identifier, identifier_code, id_cmp};
    ghost use Rattle.dtdl_terms.specs.declared.resolved.Resolved.{Resolved};
    ghost use Rattle.dtdl_terms.specs.contracts.resolved.Resolved as resolved;

    ghost Value = { List (Identifier × Resolved) };

    ghost coded = { coded_list (coded× identifier_code resolved.the_row.coded) };

    ghost view = { λ t. t.entries.entries };

    ghost invariant = { λ t. IsOrdered id_cmp t.entries };
}

impl Table {
    /// The table without entries. Takes no memory.
    pub fn new(alloc: Global) -> Table
        ensures { result ≡ [] }
    {
        Table {
            alloc,
            entries: BTreeMap::new(alloc),
        }
    }

    /// The entry of an identifier, `None` exactly where there is none. Takes no memory.
    pub fn get(&self, id: &Dtmi) -> Option<&Resolved>
        ensures { option_copied result ≡ entry_at id.now self.now }
    {
        self.entries.get(id)
    }

    /// Takes out the entry of an identifier. Takes no memory.
    pub fn remove(&mut self, id: &Dtmi)
        ensures entries { self.new ≡ remove_entry (is_at (id_cmp id.now)) self.old }
        ensures ordered { IsStrictlySortedBy id_cmp (keys_of self.old) }
    {
        let _entry = self.entries.remove(id);
    }

    /// Adds the entries of the interfaces that came into a set that breaks no rule, where it has those of all others and
    /// none of theirs. `Err` is want of memory: nothing changes.
    pub fn add(&mut self, set: &ModelSet, ids: &[Dtmi]) -> Result<(), OutOfMemory>
        requires sound { BreaksNoRule set.now }
        requires declared { AllByRecursion HasDeclaration set.now }
        requires others { ResolvesOthers set.now ids.now self.old }
        ensures ok { OnOk result (ResolvesAll set.now self.new) }
        ensures err { OnErr result (self.new ≡ self.old) }
    {
        'ids: for id in ids {
            let Ok(_) = self.add_one(set, id) else {
                self.take_out(ids);
                return Err(OutOfMemory);
            };
        }
        Ok(())
    }

    /// Adds the entry of one interface, in place of one that is there.
    fn add_one(&mut self, set: &ModelSet, id: &Dtmi) -> Result<(), OutOfMemory>
        requires sound { BreaksNoRule set.now }
        requires declared { AllByRecursion HasDeclaration set.now }
        requires there { IsSome (interface_at id.now set.now) }
        ensures ok { OnOk result ((r : Resolved) × ((i : Interface) → interface_at id.now set.now ≡ Some i → IsResolved set.now i r) × (self.new ≡ insert_entry id_cmp self.old id.now r)) }
        ensures err { OnErr result (self.new ≡ self.old) }
    {
        let resolved = resolve(self.alloc, set, id)?;
        let key = id.copy(self.alloc)?;
        self.entries.insert(key, resolved)?;
        Ok(())
    }

    /// Takes out the entries of several identifiers.
    fn take_out(&mut self, ids: &[Dtmi])
        ensures { self.new ≡ without ids.now self.old }
    {
        'ids: for id in ids {
            self.remove(id);
        }
    }
}
