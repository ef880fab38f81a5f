//! The ids of the twins under their models.

ghost use Rattle.std.specs.Prelude.{◌≡◌, ℕ, List, [], ◌&&◌, true, false, Some, cond, unwrap_or, None, OnErr, OnOk, IfErr, IfOk, MatchOption, MatchResult};
ghost use Rattle.std.specs.Option.{option_copied};
ghost use Rattle.std.specs.Ordering.{nat_cmp, is_eq};
ghost use Rattle.std.specs.Cmp.Lexicographic.{slice_cmp};
ghost use Rattle.std.specs.List.Sorted.{IsStrictlySortedBy};
ghost use Rattle.std.specs.Map.{keys_of, remove_entry};
ghost use Rattle.std.specs.BTreeMap.{get, is_at, IsOrdered};
ghost use Rattle.dt_base.specs.names.Grammar.{Identifier, id_cmp};
ghost use Rattle.graph_steps.specs.twins.Machinery.Rows.{ids_of, holds_id, first_full, full_past, HasNoIdsPast, IsNextRow};

use crate::twins::ids::Ids;
use dt_base::names::Dtmi;
use dt_base::{OutOfMemory, Text};
use std::alloc::Global;
use std::collections::BTreeMap;
use std::collections::btree_map::Range;
use std::marker::Model;
use std::ops::Bound;

/// Under each model the ids of its twins, which contracts see as a list of rows in the order of the models.
#[derive(Drop)]
pub struct Index {
    alloc: Global,
    rows: BTreeMap<Dtmi, Ids>,
}

impl Model for Index {
    ghost use Rattle.std.specs.Prelude.{List, ℕ};
    ghost use Rattle.dt_base.specs.names.Grammar.{Identifier};

    ghost Value = { List (Identifier × List (List ℕ × Unit {0})) };

    ghost use Rattle.std.specs.BTreeMap.{IsOrdered};
    ghost use Rattle.dt_base.specs.names.Grammar.{id_cmp};

    ghost view = { λ i. i.rows.entries };

    ghost invariant = { λ i. IsOrdered id_cmp i.rows };
}

/// Whether there is a row of a model, and it has no ids.
fn is_hollow(rows: &BTreeMap<Dtmi, Ids>, model: &Dtmi) -> bool
    ensures { result ≡ true → get id_cmp rows.now model.now ≡ Some [] }
{
    match rows.get(model) {
        Some(row) => row.is_empty(),
        None => false,
    }
}

/// Takes out the row of a model.
fn give_up(rows: &mut BTreeMap<Dtmi, Ids>, model: &Dtmi)
    ensures entries { rows.new.entries ≡ remove_entry (is_at (id_cmp model.now)) rows.old.entries }
    ensures ordered { IsOrdered id_cmp rows.new }
{
    let _row = rows.remove(model);
}

/// The first row that has ids.
fn first_full<'a>(mut rest: Range<'a, Dtmi, Ids>) -> Option<(&'a Dtmi, &'a Ids)>
    ensures { MatchOption result (first_full rest.entry ≡ None) (λ row. first_full rest.entry ≡ Some (row.0.now, row.1.now)) }
{
    while let Some((model, ids)) = rest.next() {
        if !ids.is_empty() {
            return Some((model, ids));
        }
    }
    None
}

/// The first row that has ids after a given model, or the first of all.
fn full_past<'a>(rows: &'a BTreeMap<Dtmi, Ids>, model: Option<&Dtmi>) -> Option<(&'a Dtmi, &'a Ids)>
    ensures { MatchOption result (full_past (option_copied model.entry) rows.now.entries ≡ None) (λ row. full_past (option_copied model.entry) rows.now.entries ≡ Some (row.0.now, row.1.now)) }
{
    match model {
        Some(model) => first_full(rows.range((Bound::Excluded(model), Bound::Unbounded))),
        None => first_full(rows.range(..)),
    }
}

impl Index {
    /// No rows. Takes no memory.
    pub fn new(alloc: Global) -> Index
        ensures { result ≡ [] }
    {
        Index {
            alloc,
            rows: BTreeMap::new(alloc),
        }
    }

    /// The ids under a model, in their order; `None` is as no ids. Takes no memory.
    pub fn row(&self, model: &Dtmi) -> Option<Range<'_, Text, ()>>
        ensures ids { unwrap_or result [] ≡ ids_of model.now self.now }
        ensures ordered { IsStrictlySortedBy (slice_cmp nat_cmp) (keys_of (ids_of model.now self.now)) }
    {
        match self.rows.get(model) {
            Some(row) => Some(row.entries()),
            None => None,
        }
    }

    /// The least model after a given one, or the least of all, under which there are ids, and their number; `None` exactly
    /// where there is none. Takes no memory.
    pub fn after(&self, model: Option<&Dtmi>) -> Option<(&Dtmi, u64)>
        ensures { MatchOption result (HasNoIdsPast (option_copied model.entry) self.now) (λ next. IsNextRow (option_copied model.entry) self.now next.0.now next.1) }
    {
        match full_past(&self.rows, model) {
            Some((least, ids)) => Some((least, ids.len())),
            None => None,
        }
    }

    /// Gives up the row of a model where it has no ids. Takes no memory.
    fn close(&mut self, model: &Dtmi)
        ensures { (m : Identifier) → ids_of m self.new ≡ ids_of m self.old }
    {
        if is_hollow(&self.rows, model) {
            give_up(&mut self.rows, model);
        }
    }

    /// Puts an id into the row of a model; where there is none, `Err` gives the id back.
    fn put(&mut self, model: &Dtmi, id: Text) -> Result<Result<(), OutOfMemory>, Text>
        ensures ok { IfOk result (λ put. OnOk put ((m : Identifier) (q : List ℕ) → holds_id m q self.new ≡ cond (is_eq (id_cmp m model.now) && is_eq (slice_cmp nat_cmp q id)) true (holds_id m q self.old))) }
        ensures err { MatchResult result (λ put. OnErr put ((m : Identifier) → ids_of m self.new ≡ ids_of m self.old)) (λ _. self.new ≡ self.old) }
        ensures back { IfErr result (λ back. back ≡ id) }
        ensures none { OnErr result (ids_of model.now self.old ≡ []) }
    {
        let Some(row) = self.rows.get_mut(model) else {
            return Err(id);
        };
        Ok(row.insert(id))
    }

    /// Makes a row of a model that has no ids, with one id in it. `Err` is want of memory: nothing changes.
    fn put_first(&mut self, model: &Dtmi, id: Text) -> Result<(), OutOfMemory>
        requires { ids_of model.now self.old ≡ [] }
        ensures ok { OnOk result ((m : Identifier) (q : List ℕ) → holds_id m q self.new ≡ cond (is_eq (id_cmp m model.now) && is_eq (slice_cmp nat_cmp q id)) true (holds_id m q self.old)) }
        ensures err { OnErr result (self.new ≡ self.old) }
    {
        let mut row = Ids::new(self.alloc);
        row.insert(id)?;
        let key = model.copy(self.alloc)?;
        self.rows.insert(key, row)?;
        Ok(())
    }

    /// Takes an id out of the row of a model. Takes no memory.
    fn take(&mut self, model: &Dtmi, id: &Text)
        ensures { (m : Identifier) (q : List ℕ) → holds_id m q self.new ≡ cond (is_eq (id_cmp m model.now) && is_eq (slice_cmp nat_cmp q id.now)) false (holds_id m q self.old) }
    {
        let Some(row) = self.rows.get_mut(model) else {
            return;
        };
        row.remove(id);
    }

    /// Puts an id under a model. `Err` is want of memory: under no model an id comes or goes.
    pub fn enter(&mut self, model: &Dtmi, id: &Text) -> Result<(), OutOfMemory>
        ensures ok { OnOk result ((m : Identifier) (q : List ℕ) → holds_id m q self.new ≡ cond (is_eq (id_cmp m model.now) && is_eq (slice_cmp nat_cmp q id.now)) true (holds_id m q self.old)) }
        ensures err { OnErr result ((m : Identifier) (q : List ℕ) → holds_id m q self.new ≡ holds_id m q self.old) }
    {
        let copy = id.copy(self.alloc)?;
        match self.put(model, copy) {
            Ok(put) => put,
            Err(copy) => self.put_first(model, copy),
        }
    }

    /// Takes an id from under a model. Takes no memory.
    pub fn leave(&mut self, model: &Dtmi, id: &Text)
        ensures { (m : Identifier) (q : List ℕ) → holds_id m q self.new ≡ cond (is_eq (id_cmp m model.now) && is_eq (slice_cmp nat_cmp q id.now)) false (holds_id m q self.old) }
    {
        self.take(model, id);
        self.close(model);
    }

    /// Moves an id that is under one model alone to another. `Err` is want of memory: under no model an id comes or goes.
    /// Takes no memory where the models are the same.
    pub fn shift(&mut self, id: &Text, from: &Dtmi, to: &Dtmi) -> Result<(), OutOfMemory>
        requires { (m : Identifier) → holds_id m id.now self.old ≡ is_eq (id_cmp m from.now) }
        ensures ok { OnOk result ((m : Identifier) (q : List ℕ) → holds_id m q self.new ≡ cond (is_eq (slice_cmp nat_cmp q id.now)) (is_eq (id_cmp m to.now)) (holds_id m q self.old)) }
        ensures err { OnErr result ((m : Identifier) (q : List ℕ) → holds_id m q self.new ≡ holds_id m q self.old) }
    {
        if from == to {
            return Ok(());
        }
        self.enter(to, id)?;
        self.leave(from, id);
        Ok(())
    }
}
