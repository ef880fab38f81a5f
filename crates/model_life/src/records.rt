//! What is kept of each model beside its interface.

ghost use Rattle.std.specs.Prelude.{◌≡◌, [], None, Some, OnErr, OnOk};
ghost use Rattle.std.specs.Option.{option_copied};
ghost use Rattle.std.specs.List.Sorted.{IsStrictlySortedBy};
ghost use Rattle.std.specs.Map.{remove_entry, set_value, keys_of};
ghost use Rattle.std.specs.BTreeMap.{is_at, insert_entry};
ghost use Rattle.dt_base.specs.names.Grammar.{id_cmp};

use dt_base::names::Dtmi;
use dt_base::{OutOfMemory, Text};
use std::alloc::Global;
use std::collections::BTreeMap;
use std::marker::Model;

/// What is kept of a model beside its interface.
#[derive(Debug, Drop)]
pub struct Record {
    /// The text of its identifier.
    pub text: Text,
    pub decommissioned: bool,
    /// The bytes of its canonical text.
    pub bytes: u64,
}

/// Records under identifiers, which contracts see as the list of the pairs in the order of the printed bytes of the
/// identifiers.
#[derive(Drop)]
pub struct Records {
    entries: BTreeMap<Dtmi, Record>,
}

impl Model for Records {
    ghost use Rattle.std.specs.Prelude.{List};
    ghost use Rattle.std.specs.Coded.{coded_list, coded×};
    ghost use Rattle.std.specs.BTreeMap.{IsOrdered};
    ghost use Rattle.dt_base.specs.names.Grammar.{Identifier, identifier_code, id_cmp};
    ghost use Rattle.model_life.specs.declared.records.Record.{Record};
    ghost use Rattle.model_life.specs.contracts.records.Record as record_of;

    ghost Value = { List (Identifier × Record) };

    ghost coded = { coded_list (coded× identifier_code record_of.the_row.coded) };

    ghost view = { λ r. r.entries.entries };

    ghost invariant = { λ r. IsOrdered id_cmp r.entries };
}

impl Records {
    ghost use Rattle.model_life.specs.declared.records.Record.{Record};
    ghost use Rattle.model_life.specs.Machinery.Keeping.{record_at, record_mark_at};

    /// No records. Takes no memory.
    pub fn new(alloc: Global) -> Records
        ensures { result ≡ [] }
    {
        Records {
            entries: BTreeMap::new(alloc),
        }
    }

    /// The record of an identifier. Takes no memory.
    pub fn get(&self, id: &Dtmi) -> Option<&Record>
        ensures { option_copied result ≡ record_at id.now self.now }
    {
        self.entries.get(id)
    }

    /// Whether the record of an identifier is marked. Takes no memory.
    pub fn is_marked(&self, id: &Dtmi) -> bool
        ensures { result ≡ record_mark_at id.now self.now }
    {
        match self.entries.get(id) {
            Some(record) => record.decommissioned,
            None => false,
        }
    }

    /// Puts a record under an identifier. `Err` is want of memory: nothing changes.
    pub fn insert(&mut self, id: Dtmi, kept: Record) -> Result<(), OutOfMemory>
        ensures ok { OnOk result (self.new ≡ insert_entry id_cmp self.old id kept) }
        ensures ordered { IsStrictlySortedBy id_cmp (keys_of self.old) }
        ensures err { OnErr result (self.new ≡ self.old) }
    {
        self.entries.insert(id, kept)?;
        Ok(())
    }

    /// Takes out the record of an identifier. Takes no memory.
    pub fn remove(&mut self, id: &Dtmi)
        ensures entries { self.new ≡ remove_entry (is_at (id_cmp id.now)) self.old }
        ensures ordered { IsStrictlySortedBy id_cmp (keys_of self.old) }
    {
        let _record = self.entries.remove(id);
    }

    /// Writes a mark into the record of an identifier, where there is one. Takes no memory.
    pub fn mark(&mut self, id: &Dtmi, on: bool)
        ensures some { (r : Record) → record_at id.now self.old ≡ Some r → self.new ≡ set_value (is_at (id_cmp id.now)) self.old (record r { decommissioned = on }) }
        ensures none { record_at id.now self.old ≡ None → self.new ≡ self.old }
    {
        let Some(record) = self.entries.get_mut(id) else {
            return;
        };
        record.decommissioned = on;
    }
}
