//! The ask that brings models.

ghost use Rattle.std.specs.Prelude.{◌≡◌, [], map, Ok, IfOk, MatchResult, OnErr, OnOk};
ghost use Rattle.std.specs.Map.{keys_of};
ghost use Rattle.dt_base.specs.names.Grammar.{dtmi_text};
ghost use Rattle.dtdl_terms.specs.Sets.{InOrder};
ghost use Rattle.graph_asks.specs.declared.refusal.Refusal.{Refusal as Refusals};
ghost use Rattle.graph_steps.specs.bodies.Bodies.{FailsBy};
ghost use Rattle.json_tree.specs.View.{view};
ghost use Rattle.json_tree.specs.Values.{array, elements_of};
ghost use Rattle.model_life.specs.Models.{with_new_models};
ghost use Rattle.graph_steps.specs.ModelAsks.{mark_value};
ghost use Rattle.graph_steps.specs.Soundness.{AreSoundUploads};
ghost use Rattle.graph_steps.specs.States.{set_of};
ghost use Rattle.graph_steps.specs.Steps.{Allows, Refuses, changed, follows};
ghost use Rattle.model_life.specs.Refusals.{AreNew};
ghost use Rattle.graph_steps.specs.held.Held.{state_of};
ghost use Rattle.graph_machine.specs.Machinery.Marks.{id_text_of, unmarked};

use crate::answers::failed;
use crate::growing::models_come;
use crate::machine::Machine;
use crate::trees::mark_tree;
use dt_base::names::Dtmi;
use dt_base::{List, OutOfMemory};
use dtdl_terms::Uploaded;
use graph_asks::{Ask, Reply};
use graph_steps::bodies::BodyFailure;
use json_tree::Tree;
use std::alloc::Global;
use std::collections::BTreeMap;

/// The identifiers of uploads, in their order.
fn ids_in_order(alloc: Global, new: &[Uploaded]) -> Result<BTreeMap<Dtmi, ()>, OutOfMemory>
    ensures { IfOk result (λ ids. map (λ id. dtmi_text id) (keys_of ids.entries) ≡ map id_text_of (with_new_models new.now [])) }
{
    let mut ids = BTreeMap::new(alloc);
    'new: for upload in new {
        ids.insert(upload.interface.id.copy(alloc)?, ())?;
    }
    Ok(ids)
}

/// Models that are not marked, by their identifiers.
fn unmarked(alloc: Global, ids: &BTreeMap<Dtmi, ()>) -> Result<Vec<Tree>, OutOfMemory>
    ensures { IfOk result (λ trees. map view trees.items ≡ map unmarked (keys_of ids.now.entries)) }
{
    let mut trees = Vec::with_capacity(alloc, ids.len())?;
    'ids: for (id, _) in ids {
        trees.push(mark_tree(alloc, id, false)?)?;
    }
    Ok(trees)
}

/// What is answered where the uploads are the only models, in the order of their identifiers.
fn created(alloc: Global, new: &[Uploaded]) -> Result<Tree, OutOfMemory>
    ensures { IfOk result (λ tree. view tree ≡ array (elements_of (map mark_value (with_new_models new.now [])))) }
{
    let ids = ids_in_order(alloc, new)?;
    let trees = unmarked(alloc, &ids)?;
    Ok(Tree::List(List::from_vec(trees)))
}

/// What is answered where models came, and where they did not.
fn answered(tree: Tree, end: Result<(), BodyFailure>) -> Result<Reply, OutOfMemory>
    ensures { MatchResult end
        (λ _. result ≡ Ok (Reply.Created tree))
        (λ failure. IfOk result (λ reply. (r : Refusals) × (failure ≡ BodyFailure.Refused r) × (reply ≡ Reply.Refused r))) }
{
    match end {
        Ok(_) => Ok(Reply::Created(tree)),
        Err(failure) => failed(failure),
    }
}

impl Machine {
    /// Takes models, which are not marked, all or none; refused, in this order, where one is there, where one breaks a rule,
    /// where a limit on models would be passed, and where a twin that would become live would not fit its model, or be an end
    /// of a relationship that would not be well typed. `Err` is want of memory, and nothing changes.
    pub fn put_models(&mut self, new: &[Uploaded]) -> Result<Reply, OutOfMemory>
        requires { AreSoundUploads new.now }
        ensures allowed { IfOk result (Allows (state_of self.old) (Ask.PutModels new.now)) }
        ensures follows { IfOk result (λ reply. state_of self.new ≡ follows (state_of self.old) (Ask.PutModels new.now) reply) }
        ensures unchanged { OnErr result (self.new ≡ self.old) }
    {
        let tree = created(self.alloc, new)?;
        let end = self.models_in(new);
        answered(tree, end)
    }

    /// Takes models, where nothing refuses them. Fails by the refusal, or for want of memory: nothing changes.
    fn models_in(&mut self, new: &[Uploaded]) -> Result<(), BodyFailure>
        requires { AreSoundUploads new.now }
        ensures judged { MatchResult result (λ _. (r : Refusals) → Refuses (state_of self.old) (Ask.PutModels new.now) r → ⊥) (FailsBy (Refuses (state_of self.old) (Ask.PutModels new.now))) }
        ensures new { IfOk result (λ _. AreNew (state_of self.old).models new.now) }
        ensures ordered { InOrder (set_of (state_of self.old)) }
        ensures ok { OnOk result (state_of self.new ≡ changed (state_of self.old) (Ask.PutModels new.now)) }
        ensures err { OnErr result (self.new ≡ self.old) }
    {
        models_come(
            self.alloc,
            &mut self.models,
            &mut self.resolutions,
            &self.twins,
            &self.links,
            self.link_bytes,
            new,
        )
    }
}
