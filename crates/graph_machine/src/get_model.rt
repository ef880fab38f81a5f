//! The ask for one model.

ghost use Rattle.std.specs.Prelude.{◌≡◌, IfOk};
ghost use Rattle.graph_steps.specs.Steps.{Allows, follows};
ghost use Rattle.graph_steps.specs.held.Held.{state_of};

use crate::answers::model_not_found;
use crate::machine::Machine;
use crate::trees::model_tree;
use dt_base::OutOfMemory;
use dt_base::names::Dtmi;
use graph_asks::{Ask, Reply};

impl Machine {
    /// A model with its mark, in its canonical form; refused where there is no such model. `Err` is want of memory.
    pub fn get_model(&self, id: &Dtmi) -> Result<Reply, OutOfMemory>
        ensures allowed { IfOk result (Allows (state_of self.now) (Ask.GetModel id.now)) }
        ensures follows { IfOk result (λ reply. follows (state_of self.now) (Ask.GetModel id.now) reply ≡ state_of self.now) }
    {
        match self.models.get(id) {
            Some((interface, on)) => Ok(Reply::Body(model_tree(self.alloc, interface, on)?)),
            None => model_not_found(self.alloc, id),
        }
    }
}
