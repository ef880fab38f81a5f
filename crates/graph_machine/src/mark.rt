//! The ask that marks a model.

ghost use Rattle.std.specs.Prelude.{◌≡◌, IfOk, IsOk, OnErr};
ghost use Rattle.graph_asks.specs.Answers.{done};
ghost use Rattle.graph_steps.specs.Steps.{Allows, Answers, follows};
ghost use Rattle.graph_steps.specs.held.Held.{state_of};

use crate::answers::model_not_found;
use crate::machine::Machine;
use dt_base::OutOfMemory;
use dt_base::names::Dtmi;
use graph_asks::{Ask, Reply};
use model_life::MarkEnd;

impl Machine {
    /// Marks a model as decommissioned, or takes the mark off; refused where there is no such model. Takes no memory where
    /// it is done; else `Err` is want of memory, and nothing changes.
    pub fn mark(&mut self, id: &Dtmi, on: bool) -> Result<Reply, OutOfMemory>
        ensures allowed { IfOk result (Allows (state_of self.old) (Ask.Mark id.now on)) }
        ensures follows { IfOk result (λ reply. state_of self.new ≡ follows (state_of self.old) (Ask.Mark id.now on) reply) }
        ensures unchanged { OnErr result (self.new ≡ self.old) }
        ensures free { Answers (state_of self.old) (Ask.Mark id.now on) done → IsOk result }
    {
        match self.models.mark(id, on) {
            Ok(_) => Ok(Reply::Done),
            Err(MarkEnd::ModelNotFound) => model_not_found(self.alloc, id),
        }
    }
}
