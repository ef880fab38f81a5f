//! The ask for one twin.

ghost use Rattle.std.specs.Prelude.{◌≡◌, IfOk};
ghost use Rattle.graph_steps.specs.Steps.{Allows, follows};
ghost use Rattle.graph_steps.specs.held.Held.{state_of};

use crate::answers::twin_not_found;
use crate::machine::Machine;
use dt_base::{OutOfMemory, Text};
use graph_asks::{Ask, Reply};
use graph_steps::bodies::twin_tree;

impl Machine {
    /// A twin, as it is printed; refused where there is no such twin. `Err` is want of memory.
    pub fn get_twin(&self, id: &Text) -> Result<Reply, OutOfMemory>
        ensures allowed { IfOk result (Allows (state_of self.now) (Ask.GetTwin id.now)) }
        ensures follows { IfOk result (λ reply. follows (state_of self.now) (Ask.GetTwin id.now) reply ≡ state_of self.now) }
    {
        match self.twin(id) {
            Some(twin) => Ok(Reply::Body(twin_tree(self.alloc, twin)?)),
            None => twin_not_found(self.alloc, id),
        }
    }
}
