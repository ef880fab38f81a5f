//! The models of a graph.

ghost use Rattle.std.specs.Prelude.{◌≡◌, ◌+◌, ◌≤◌, [], ◌∷◌, cond, None, IsSome, length, map, OnErr, OnOk, IfErr, IfOk, MatchResult};
ghost use Rattle.std.specs.Option.{option_copied, option_map};
ghost use Rattle.std.specs.List.{AllByRecursion};
ghost use Rattle.dt_base.specs.names.Grammar.{Identifier, dtmi_text};
ghost use Rattle.dtdl_terms.specs.Distinct.{AreDistinct, HasDeclaration};
ghost use Rattle.dtdl_terms.specs.Sets.{InOrder, interface_at};
ghost use Rattle.extend_resolve.specs.Breaches.{BreaksNoRule, IsSound};
ghost use Rattle.model_life.specs.resolution.Resolving.{EntryOf};
ghost use Rattle.model_life.specs.sets.Changing.{is_one_of, AreFree};
ghost use Rattle.model_life.specs.Models.{model_of, interfaces_of, model_at, next_model, with_mark, with_new_models, without_models, first_user};
ghost use Rattle.model_life.specs.Sums.{model_bytes, AreWithinLimits};
ghost use Rattle.model_life.specs.Machinery.Keeping.{record_mark_at, written_at};
ghost use Rattle.model_life.specs.Refusals.{AreNew, RefusesUploads, RefusesMark, RefusesDrop};

use crate::adding::{ids_of, judge};
use crate::ends::{AddEnd, DropEnd, MarkEnd};
use crate::records::Records;
use crate::resolution::resolve;
use crate::shares::Shares;
use crate::store::{grow, shrink};
use crate::sums::bytes_of;
use crate::users::{Users, first_of};
use dt_base::names::Dtmi;
use dt_base::{List, OutOfMemory};
use dtdl_terms::{Interface, Limit, ModelSet, Resolved, Uploaded};
use std::alloc::Global;
use std::marker::Model;

/// The most models that there are (this project's own).
pub const MOST_MODELS: u64 = 10_000;

/// The most bytes of their canonical texts together (this project's own).
pub const MOST_MODEL_BYTES: u64 = 67_108_864;

/// The most bytes of the canonical texts of all that they extend and have as components, together (this project's own).
pub const MOST_RESOLVED_BYTES: u64 = 268_435_456;

/// Interfaces that together break no rule, each with whether it is decommissioned, which contracts see as the list of these
/// models in the order of the printed bytes of their identifiers.
///
/// Each interface has a declaration, and the limits on models hold ([`Models::sound`]).
#[derive(Drop)]
pub struct Models {
    alloc: Global,
    set: ModelSet,
    records: Records,
    users: Users,
    shares: Shares,
    bytes: u64,
    resolved: u64,
}

impl Model for Models {
    ghost use Rattle.std.specs.Prelude.{List};
    ghost use Rattle.std.specs.Coded.{coded_list};
    ghost use Rattle.model_life.specs.Models.{Model as Live};
    ghost use Rattle.model_life.specs.Machinery.Codes.{model_code};
    ghost use Rattle.model_life.specs.Machinery.Keeping.{models_of, IsKept};

    ghost Value = { List Live };

    ghost coded = { coded_list model_code };

    ghost view = { λ m. models_of m.set m.records };

    ghost invariant = { λ m. IsKept m.set m.records m.users m.shares m.bytes m.resolved };
}

impl Models {
    /// No models. Takes no memory.
    pub fn new(alloc: Global) -> Models
        ensures { result ≡ [] }
    {
        Models {
            alloc,
            set: ModelSet::new(alloc),
            records: Records::new(alloc),
            users: Users::new(alloc),
            shares: Shares::new(alloc),
            bytes: 0,
            resolved: 0,
        }
    }

    /// What holds of all models: the rules on sets are broken nowhere, each interface has a declaration, the identifiers
    /// ascend, and no limit on models is passed.
    pub fn sound(&self)
        ensures rules { BreaksNoRule (interfaces_of self.now) }
        ensures declared { AllByRecursion HasDeclaration (interfaces_of self.now) }
        ensures ordered { InOrder (interfaces_of self.now) }
        ensures limits { AreWithinLimits self.now }
    {
        let _set = &self.set;
    }

    /// How many models there are. Takes no memory.
    pub fn len(&self) -> u64
        ensures { result ≡ length self.now }
    {
        self.set.len() as u64
    }

    /// The bytes of the canonical texts of all models together. Takes no memory.
    pub fn bytes(&self) -> u64
        ensures { result ≡ model_bytes self.now }
    {
        self.bytes
    }

    /// The set of the interfaces, without the marks. Takes no memory.
    pub fn set(&self) -> &ModelSet
        ensures { result.now ≡ interfaces_of self.now }
    {
        &self.set
    }

    /// The model with an identifier: its interface, and whether it is decommissioned. Takes no memory.
    pub fn get(&self, id: &Dtmi) -> Option<(&Interface, bool)>
        ensures { option_map (λ m. model_of m.0.now m.1) result ≡ model_at id.now self.now }
    {
        marked(&self.records, self.set.get(id))
    }

    /// The model with the least identifier past a given one, or with the least of all; `None` exactly where there is none.
    /// Takes no memory.
    pub fn after(&self, id: Option<&Dtmi>) -> Option<(&Interface, bool)>
        ensures { option_map (λ m. model_of m.0.now m.1) result ≡ next_model (option_copied id.entry) self.now }
    {
        marked(&self.records, self.set.after(id))
    }

    /// What the model with an identifier has with all that it inherits, made anew; `None` exactly where there is no such
    /// model. Fails only for want of memory.
    pub fn resolved(&self, id: &Dtmi) -> Result<Option<Resolved>, OutOfMemory>
        ensures { IfOk result (EntryOf (interfaces_of self.now) (interface_at id.now (interfaces_of self.now))) }
    {
        if self.set.get(id).is_none() {
            return Ok(None);
        }
        let resolved = resolve(self.alloc, &self.set, id)?;
        Ok(Some(resolved))
    }

    /// The least identifier of another model that extends a model directly or has a component of it, `None` exactly where
    /// there is none. Takes no memory.
    pub fn used_by(&self, id: &Dtmi) -> Option<&Dtmi>
        ensures { option_copied result ≡ first_user id.now self.now }
    {
        let Some(record) = self.records.get(id) else {
            return None;
        };
        let Some(user) = first_of(self.users.row(&record.text)) else {
            return None;
        };
        match self.set.get(user) {
            Some(interface) => Some(&interface.id),
            None => None,
        }
    }

    /// Marks a model as decommissioned, or takes the mark off. Takes no memory.
    pub fn mark(&mut self, id: &Dtmi, on: bool) -> Result<(), MarkEnd>
        ensures end { MatchResult result (λ _. IsSome (model_at id.now self.old)) (RefusesMark self.old id.now) }
        ensures ok { OnOk result (self.new ≡ with_mark id.now on self.old) }
        ensures err { OnErr result (self.new ≡ self.old) }
    {
        if self.set.get(id).is_none() {
            return Err(MarkEnd::ModelNotFound);
        }
        self.records.mark(id, on);
        Ok(())
    }

    /// Takes out a model that no other uses. Takes no memory.
    pub fn drop_model(&mut self, id: &Dtmi) -> Result<(), DropEnd>
        ensures end { MatchResult result (λ _. IsSome (model_at id.now self.old) × (first_user id.now self.old ≡ None)) (RefusesDrop self.old id.now) }
        ensures ok { OnOk result (self.new ≡ without_models (id.now ∷ []) self.old) }
        ensures err { OnErr result (self.new ≡ self.old) }
    {
        if self.set.get(id).is_none() {
            return Err(DropEnd::ModelNotFound);
        }
        if self.used_by(id).is_some() {
            return Err(DropEnd::ModelInUse);
        }
        self.take_back(std::slice::from_ref(id));
        Ok(())
    }

    /// Takes out models that no other model extends directly or has a component of. Takes no memory.
    pub fn take_back(&mut self, ids: &[Dtmi])
        requires distinct { AreDistinct (map (λ id. dtmi_text id) ids.now) }
        requires free { AreFree (interfaces_of self.old) ids.now }
        ensures { self.new ≡ without_models ids.now self.old }
    {
        self.bytes -= bytes_of(&self.records, ids);
        self.resolved -= self.shares.sum(ids);
        shrink(&mut self.set, &mut self.records, &mut self.users, ids);
        remove_all(&mut self.shares, ids);
    }

    /// Adds models, which are not decommissioned. `Err` says why not, and nothing changes.
    pub fn add(&mut self, new: List<Uploaded>) -> Result<(), AddEnd>
        requires { AllByRecursion (λ u. HasDeclaration u.interface) new }
        ensures end { MatchResult result (λ _. AreNew self.old new × IsSound (interfaces_of self.old) new × AreWithinLimits (with_new_models new self.old)) (RefusesUploads self.old new) }
        ensures ok { OnOk result (self.new ≡ with_new_models new self.old) }
        ensures err { OnErr result (self.new ≡ self.old) }
    {
        match judge(self.alloc, &self.set, new.as_slice()) {
            Ok(_) => {}
            Err(end) => return Err(end),
        }
        let Ok(ids) = ids_of(self.alloc, new.as_slice()) else {
            return Err(AddEnd::OutOfMemory);
        };
        self.join(new, ids.as_slice())
    }

    /// Adds models that break no rule, where the limits on bytes allow it.
    fn join(&mut self, new: List<Uploaded>, ids: &[Dtmi]) -> Result<(), AddEnd>
        requires declared { AllByRecursion (λ u. HasDeclaration u.interface) new }
        requires ids { ids.now ≡ map (λ u. u.interface.id) new }
        requires new { AreNew self.old new }
        requires sound { IsSound (interfaces_of self.old) new }
        requires few { length self.old + length new ≤ 10000 }
        ensures end { MatchResult result (λ _. AreWithinLimits (with_new_models new self.old)) (RefusesUploads self.old new) }
        ensures ok { OnOk result (self.new ≡ with_new_models new self.old) }
        ensures err { OnErr result (self.new ≡ self.old) }
    {
        let Ok(_) = grow(
            &mut self.set,
            &mut self.records,
            &mut self.users,
            self.alloc,
            new,
            ids,
        ) else {
            return Err(AddEnd::OutOfMemory);
        };
        let bytes = self.bytes.saturating_add(bytes_of(&self.records, ids));
        if bytes > MOST_MODEL_BYTES {
            shrink(&mut self.set, &mut self.records, &mut self.users, ids);
            return Err(AddEnd::Full {
                limit: Limit::ModelBytes,
            });
        }
        let Ok(resolved) = self
            .shares
            .add(&self.set, &self.records, ids, self.resolved)
        else {
            shrink(&mut self.set, &mut self.records, &mut self.users, ids);
            remove_all(&mut self.shares, ids);
            return Err(AddEnd::OutOfMemory);
        };
        if resolved > MOST_RESOLVED_BYTES {
            shrink(&mut self.set, &mut self.records, &mut self.users, ids);
            remove_all(&mut self.shares, ids);
            return Err(AddEnd::Full {
                limit: Limit::ResolvedBytes,
            });
        }
        self.bytes = bytes;
        self.resolved = resolved;
        Ok(())
    }
}

/// An interface with the mark of its model.
fn marked<'a>(records: &Records, interface: Option<&'a Interface>) -> Option<(&'a Interface, bool)>
    ensures { option_map (λ m. model_of m.0.now m.1) result ≡ option_map (λ i. model_of i (record_mark_at i.id records.now)) (option_copied interface.entry) }
{
    match interface {
        Some(interface) => Some((interface, records.is_marked(&interface.id))),
        None => None,
    }
}

/// Takes the numbers of several identifiers out. Takes no memory.
fn remove_all(shares: &mut Shares, ids: &[Dtmi])
    ensures { (q : Identifier) → written_at q shares.new ≡ cond (is_one_of ids.now q) 0 (written_at q shares.old) }
{
    'ids: for id in ids {
        shares.remove(id);
    }
}
