//! The twins of a graph.

ghost use Rattle.std.specs.Prelude.{◌≡◌, ◌+◌, ◌-◌, ◌^◌, ◌<◌, ℕ, List, [], Some, cond, length, slice_get, IfOk, IfErr, OnErr, OnOk, MatchOption};
ghost use Rattle.std.specs.Option.{option_copied, option_map};
ghost use Rattle.std.specs.Ordering.{nat_cmp, is_eq};
ghost use Rattle.std.specs.Cmp.Lexicographic.{slice_cmp};
ghost use Rattle.std.specs.Map.{values_of};
ghost use Rattle.dt_base.specs.names.Grammar.{Identifier};
ghost use Rattle.graph_steps.specs.twins.Held.{TwinsInOrder, held_at, held_twin_at, next_held_past, with_held, without_held, is_twin_of, of_model, total_bytes, HasNoModelPast, IsNextModel};
ghost use Rattle.graph_steps.specs.twins.Machinery.Rows.{holds_id};

use crate::twins::held::{Held, PutEnd};
use crate::twins::index::Index;
use crate::twins::listing::OfModel;
use dt_base::names::Dtmi;
use dt_base::{OutOfMemory, Text};
use std::alloc::Global;
use std::collections::BTreeMap;
use std::collections::btree_map::{Entry, Range};
use std::marker::Model;
use std::ops::Bound;
use twin_value::Twin;

/// Twins, each with a size that is given with it, which contracts see as a list in the order of the bytes of their ids,
/// no two with one id.
#[derive(Drop)]
pub struct Twins {
    alloc: Global,
    len: u64,
    bytes: u64,
    twins: BTreeMap<Text, Held>,
    index: Index,
}

impl Model for Twins {
    ghost use Rattle.std.specs.Prelude.{List};
    ghost use Rattle.std.specs.Coded.{coded_list};
    ghost use Rattle.graph_steps.specs.contracts.twins.held.Held as held;
    ghost use Rattle.graph_steps.specs.declared.twins.held.Held.{Held};

    ghost Value = { List Held };

    ghost coded = { coded_list held.the_row.coded };

    ghost use Rattle.std.specs.Map.{values_of};
    ghost use Rattle.graph_steps.specs.twins.Machinery.Keeping.{KeepsTwins};

    ghost view = { λ t. values_of t.twins.entries };

    ghost invariant = { λ t. KeepsTwins t.twins.entries t.index t.len t.bytes };
}

impl Twins {
    /// No twins. Takes no memory.
    pub fn new(alloc: Global) -> Twins
        ensures { result ≡ [] }
    {
        Twins {
            alloc,
            len: 0,
            bytes: 0,
            twins: BTreeMap::new(alloc),
            index: Index::new(alloc),
        }
    }

    /// How many twins there are. Takes no memory.
    pub fn len(&self) -> u64
        ensures len { result ≡ length self.now }
        ensures ordered { TwinsInOrder self.now }
    {
        self.len
    }

    /// The sum of the sizes, which is below 2⁶⁴ since `put` lets none pass it. Takes no memory.
    pub fn bytes(&self) -> u64
        ensures { result ≡ total_bytes self.now }
    {
        self.bytes
    }

    /// The twin with an id. Takes no memory.
    pub fn get(&self, id: &Text) -> Option<&Twin>
        ensures { option_copied result ≡ held_twin_at id.now self.now }
    {
        match self.twins.get(id) {
            Some(held) => Some(&held.twin),
            None => None,
        }
    }

    /// The twin with an id, and the size that was given with it. Takes no memory.
    pub fn held(&self, id: &Text) -> Option<&Held>
        ensures { option_copied result ≡ held_at id.now self.now }
    {
        self.twins.get(id)
    }

    /// The twin with the least id past a given one, or with the least of all; `None` exactly where there is none. Takes no
    /// memory.
    pub fn after(&self, id: Option<&Text>) -> Option<&Twin>
        ensures { option_copied result ≡ next_held_past (option_copied id.entry) self.now }
    {
        match id {
            Some(id) => first_of(self.twins.range((Bound::Excluded(id), Bound::Unbounded))),
            None => first_of(self.twins.range(..)),
        }
    }

    /// The twins of a model, in the order of their ids. Takes no memory.
    pub fn of_model(&self, model: &Dtmi) -> OfModel<'_>
        ensures { result ≡ of_model model.now self.now }
    {
        OfModel {
            twins: &self.twins,
            ids: self.index.row(model),
        }
    }

    /// The least model past a given one, or the least of all, that twins are of, and how many are; `None` exactly where
    /// there is none. Takes no memory.
    pub fn model_after(&self, model: Option<&Dtmi>) -> Option<(&Dtmi, u64)>
        ensures { MatchOption result (HasNoModelPast (option_copied model.entry) self.now) (λ next. IsNextModel (option_copied model.entry) self.now next.0.now next.1) }
    {
        self.index.after(model)
    }

    /// Puts a twin with its size at its place, and gives the one with its id that was there.
    ///
    /// `Err` is want of memory, or that there are 2⁶⁴ - 1 twins already, or that the sum of the sizes, with that of the one whose
    /// place would be taken, would pass 64 bits: it hands the twin back, and nothing changes.
    pub fn put(&mut self, twin: Twin, bytes: u64) -> Result<Option<Twin>, PutEnd>
        ensures old { IfOk result (λ old. old ≡ held_twin_at twin.id self.old) }
        ensures ok { OnOk result (self.new ≡ with_held (record { twin = twin; bytes = bytes }) self.old) }
        ensures back { IfErr result (λ end. end.back ≡ twin) }
        ensures err { OnErr result (self.new ≡ self.old) }
    {
        let Ok(id) = key_of(self.alloc, self.len, self.bytes, &twin, bytes) else {
            return Err(PutEnd { back: twin });
        };
        let Ok(entry) = self.twins.entry(id) else {
            return Err(PutEnd { back: twin });
        };
        match entry {
            Entry::Occupied(mut there) => {
                let old = put_over(&mut self.index, there.get_mut(), Held { twin, bytes })?;
                self.bytes = (self.bytes + bytes).saturating_sub(old.bytes);
                Ok(Some(old.twin))
            }
            Entry::Vacant(place) => {
                let there = place.insert_entry(Held { twin, bytes });
                let held = there.get();
                let Ok(()) = self.index.enter(&held.twin.model, &held.twin.id) else {
                    return Err(PutEnd {
                        back: there.remove().twin,
                    });
                };
                self.len += 1;
                self.bytes += bytes;
                Ok(None)
            }
        }
    }

    /// Takes out the twin with an id, and gives it. Takes no memory.
    pub fn remove(&mut self, id: &Text) -> Option<Twin>
        ensures value { result ≡ held_twin_at id.now self.old }
        ensures twins { self.new ≡ without_held id.now self.old }
    {
        let Some(held) = self.twins.remove(id) else {
            return None;
        };
        let Held { twin, bytes } = held;
        self.index.leave(&twin.model, &twin.id);
        self.len = self.len.saturating_sub(1);
        self.bytes = self.bytes.saturating_sub(bytes);
        Some(twin)
    }
}

/// A copy of a twin's id. Fails for want of memory, or where a twin of this size cannot be counted with so many twins of
/// so many bytes.
fn key_of(alloc: Global, len: u64, sum: u64, twin: &Twin, bytes: u64) -> Result<Text, OutOfMemory>
    ensures id { IfOk result (λ id. id ≡ twin.now.id) }
    ensures len { IfOk result (λ _. len < 2 ^ 64 - 1) }
    ensures sum { IfOk result (λ _. sum + bytes < 2 ^ 64) }
{
    if len == u64::MAX || bytes > u64::MAX - sum {
        return Err(OutOfMemory);
    }
    twin.id.copy(alloc)
}

/// Puts a twin in the place of the one with its id, and gives that one. `Err` is want of memory: it hands the twin back,
/// and nothing changes.
fn put_over(index: &mut Index, place: &mut Held, held: Held) -> Result<Held, PutEnd>
    requires { (m : Identifier) → holds_id m held.twin.id index.old ≡ is_twin_of m place.old }
    ensures old { IfOk result (λ old. old ≡ place.old) }
    ensures ok { OnOk result (place.new ≡ held) }
    ensures index { OnOk result ((m : Identifier) (q : List ℕ) → holds_id m q index.new ≡ cond (is_eq (slice_cmp nat_cmp q held.twin.id)) (is_twin_of m held) (holds_id m q index.old)) }
    ensures back { IfErr result (λ end. end.back ≡ held.twin) }
    ensures err { OnErr result (place.new ≡ place.old) }
    ensures err_index { OnErr result ((m : Identifier) (q : List ℕ) → holds_id m q index.new ≡ holds_id m q index.old) }
{
    let Ok(()) = index.shift(&held.twin.id, &place.twin.model, &held.twin.model) else {
        return Err(PutEnd { back: held.twin });
    };
    Ok(std::mem::replace(place, held))
}

/// The first twin that is left.
fn first_of<'a>(mut rest: Range<'a, Text, Held>) -> Option<&'a Twin>
    ensures { option_copied result ≡ option_map (λ h. h.twin) (slice_get (values_of rest.entry) 0) }
{
    match rest.next() {
        Some((_, held)) => Some(&held.twin),
        None => None,
    }
}
