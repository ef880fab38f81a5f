//! The ask for all models.

ghost use Rattle.std.specs.Prelude.{◌≡◌, ◌∷◌, [], map, IfOk};
ghost use Rattle.json_tree.specs.View.{view};
ghost use Rattle.dtdl_terms.specs.Sets.{keyed};
ghost use Rattle.model_life.specs.Models.{interfaces_of};
ghost use Rattle.graph_steps.specs.Steps.{Allows, follows};
ghost use Rattle.graph_steps.specs.held.Held.{state_of};
ghost use Rattle.graph_machine.specs.Machinery.Marks.{is_model_marked, entry_json};

use crate::machine::Machine;
use crate::trees::{list_tree, mark_tree};
use dt_base::OutOfMemory;
use dt_base::names::Dtmi;
use graph_asks::{Ask, Reply};
use json_tree::Tree;
use model_life::Models;
use std::alloc::Global;

/// Whether there is a model with an identifier, and it is marked.
fn is_marked(models: &Models, id: &Dtmi) -> bool
    ensures { result ≡ is_model_marked models.now id.now }
{
    match models.get(id) {
        Some((_, on)) => on,
        None => false,
    }
}

/// The identifiers of all models with their marks, in the order of the identifiers.
fn marks(alloc: Global, models: &Models) -> Result<Vec<Tree>, OutOfMemory>
    ensures { IfOk result (λ trees. map view trees.items ≡ map (entry_json models.now) (keyed (interfaces_of models.now))) }
{
    let mut trees = Vec::new(alloc);
    'models: for (id, _) in models.set().entries() {
        trees.push(mark_tree(alloc, id, is_marked(models, id))?)?;
    }
    Ok(trees)
}

impl Machine {
    /// The identifiers of all models with their marks, in the order of the identifiers. `Err` is want of memory.
    pub fn list_models(&self) -> Result<Reply, OutOfMemory>
        ensures allowed { IfOk result (Allows (state_of self.now) Ask.ListModels) }
        ensures follows { IfOk result (λ reply. follows (state_of self.now) Ask.ListModels reply ≡ state_of self.now) }
    {
        self.models.sound();
        let trees = marks(self.alloc, &self.models)?;
        Ok(Reply::Body(list_tree(self.alloc, trees)?))
    }
}
