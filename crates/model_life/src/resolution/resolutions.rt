//! What interfaces of a set have with all that they inherit, made where it is first asked for, and held for the next time.

ghost use Rattle.std.specs.Prelude.{◌≡◌, ◌+◌, ◌-◌, ◌^◌, ◌≤◌, ◌⊎◌, [], min, length, None, IsSome, OnOk, OnErr};
ghost use Rattle.std.specs.Option.{option_copied};
ghost use Rattle.std.specs.List.{AllByRecursion, sum_by};
ghost use Rattle.std.specs.List.Sorted.{IsStrictlySortedBy};
ghost use Rattle.std.specs.Map.{remove_entry, keys_of};
ghost use Rattle.std.specs.BTreeMap.{is_at, insert_entry};
ghost use Rattle.dt_base.specs.names.Grammar.{id_cmp};
ghost use Rattle.dtdl_terms.specs.Distinct.{HasDeclaration};
ghost use Rattle.dtdl_terms.specs.Sets.{interface_at};
ghost use Rattle.extend_resolve.specs.Breaches.{BreaksNoRule};
ghost use Rattle.model_life.specs.resolution.Resolving.{entry_at, held_contents, HoldsRight, HoldsLittle};
ghost use Rattle.model_life.specs.resolution.Machinery.Counting.{IsCounted};

use crate::resolution::resolving::resolve;
use dt_base::OutOfMemory;
use dt_base::names::Dtmi;
use dtdl_terms::{ModelSet, PartOf, Resolved};
use std::alloc::Global;
use std::collections::BTreeMap;
use std::marker::Model;

/// The most contents that are held of several interfaces together (this project's own).
pub const MOST_HELD: u64 = 100_000;

/// A finite map from identifiers to what the interfaces have with all that they inherit, which contracts see as the list
/// of its entries in the order of the printed bytes of the identifiers.
///
/// It holds at most [`MOST_HELD`] contents, or else what one interface has ([`Resolutions::little`]): before it would hold more,
/// it lets go of all that it holds.
#[derive(Drop)]
pub struct Resolutions {
    alloc: Global,
    entries: BTreeMap<Dtmi, Resolved>,
    held: u64,
}

impl Model for Resolutions {
    ghost use Rattle.std.specs.Prelude.{List};
    ghost use Rattle.std.specs.Coded.{coded_list, coded×};
    ghost use Rattle.std.specs.BTreeMap.{IsOrdered};
    ghost use Rattle.dt_base.specs.names.Grammar.{Identifier, identifier_code, id_cmp};
    ghost use Rattle.dtdl_terms.specs.declared.resolved.Resolved.{Resolved};
    ghost use Rattle.dtdl_terms.specs.contracts.resolved.Resolved as resolved;
    ghost use Rattle.model_life.specs.resolution.Machinery.Counting.{IsCounted};

    ghost Value = { List (Identifier × Resolved) };

    ghost coded = { coded_list (coded× identifier_code resolved.the_row.coded) };

    ghost view = { λ t. t.entries.entries };

    ghost invariant = { λ t. IsOrdered id_cmp t.entries × IsCounted t.entries.entries t.held };
}

impl Resolutions {
    /// Nothing is held. Takes no memory.
    pub fn new(alloc: Global) -> Resolutions
        ensures { result ≡ [] }
    {
        Resolutions {
            alloc,
            entries: BTreeMap::new(alloc),
            held: 0,
        }
    }

    /// What holds of all that is held: it is little, and the identifiers ascend.
    pub fn little(&self)
        ensures little { HoldsLittle self.now }
        ensures ordered { IsStrictlySortedBy id_cmp (keys_of self.now) }
    {
        let _held = self.held;
    }

    /// What is held of an identifier. Takes no memory.
    pub fn get(&self, id: &Dtmi) -> Option<&Resolved>
        ensures { option_copied result ≡ entry_at id.now self.now }
    {
        self.entries.get(id)
    }

    /// Makes what an interface of a set that breaks no rule has, where it is not held, and holds it, so that [`Resolutions::get`]
    /// finds it. What is held stays right, also after `Err`, which is want of memory.
    pub fn ready(&mut self, set: &ModelSet, id: &Dtmi) -> Result<(), OutOfMemory>
        requires sound { BreaksNoRule set.now }
        requires declared { AllByRecursion HasDeclaration set.now }
        requires there { IsSome (interface_at id.now set.now) }
        requires right { HoldsRight set.now self.old }
        ensures held { OnOk result (IsSome (entry_at id.now self.new)) }
        ensures right { HoldsRight set.now self.new }
    {
        if self.entries.get(id).is_some() {
            return Ok(());
        }
        let key = id.copy(self.alloc)?;
        let Ok(resolved) = resolve(self.alloc, set, id) else {
            drop(key);
            return Err(OutOfMemory);
        };
        self.hold(key, resolved)
    }

    /// Holds what one interface more has.
    fn hold(&mut self, key: Dtmi, resolved: Resolved) -> Result<(), OutOfMemory>
        requires { entry_at key self.old ≡ None }
        ensures ok { OnOk result ((self.new ≡ insert_entry id_cmp self.old key resolved) ⊎ (self.new ≡ insert_entry id_cmp [] key resolved)) }
        ensures err { OnErr result ((self.new ≡ self.old) ⊎ (self.new ≡ [])) }
    {
        let contents = contents_of(&resolved);
        self.held = make_room(&mut self.entries, self.held, contents);
        let before = self.entries.insert(key, resolved)?;
        drop(before);
        self.held = self.held.saturating_add(contents);
        Ok(())
    }

    /// Lets go of what is held of an identifier. Takes no memory.
    pub fn remove(&mut self, id: &Dtmi)
        ensures { self.new ≡ remove_entry (is_at (id_cmp id.now)) self.old }
    {
        if let Some(resolved) = self.entries.remove(id) {
            self.held = self.held.saturating_sub(contents_of(&resolved));
            drop(resolved);
        }
    }

    /// Lets go of all. Takes no memory.
    pub fn clear(&mut self)
        ensures { self.new ≡ [] }
    {
        self.entries.clear();
        self.held = 0;
    }
}

/// How many contents are counted so that they are held: all are let go where they would be too many with those that come.
fn make_room(entries: &mut BTreeMap<Dtmi, Resolved>, held: u64, contents: u64) -> u64
    requires { IsCounted entries.old.entries held }
    ensures counted { IsCounted entries.new.entries result }
    ensures room { (result + contents ≤ 100000) ⊎ (entries.new.entries ≡ []) }
    ensures kept { (entries.new.entries ≡ entries.old.entries) ⊎ (entries.new.entries ≡ []) }
{
    if held.saturating_add(contents) > MOST_HELD {
        entries.clear();
        return 0;
    }
    held
}

/// The contents of an interface and of its parts.
fn contents_of(resolved: &Resolved) -> u64
    ensures { result ≡ min (held_contents resolved.now) (2 ^ 64 - 1) }
{
    let own = resolved.contents.len() as u64;
    own.saturating_add(contents_of_parts(resolved.parts.as_slice()))
}

/// The contents of parts.
fn contents_of_parts(parts: &[PartOf]) -> u64
    ensures { result ≡ min (sum_by (λ part. length part.contents) parts.now) (2 ^ 64 - 1) }
{
    let mut sum: u64 = 0;
    'parts: for part in parts {
        sum = sum.saturating_add(part.contents.len() as u64);
    }
    sum
}
