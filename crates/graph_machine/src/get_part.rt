//! The ask for a component of a twin.

ghost use Rattle.std.specs.Prelude.{◌≡◌, IfOk, Some};
ghost use Rattle.graph_steps.specs.bodies.Kept.{twin_view, IsKeptTwin};
ghost use Rattle.graph_steps.specs.States.{twin_at};
ghost use Rattle.graph_steps.specs.Steps.{Allows, follows};
ghost use Rattle.graph_steps.specs.held.Held.{state_of};

use crate::answers::{component_not_found, twin_not_found};
use crate::machine::Machine;
use dt_base::{OutOfMemory, Text};
use graph_asks::{Ask, Reply};
use graph_steps::bodies::{kept_part, part_tree};
use json_tree::value_in;
use twin_value::Twin;

impl Machine {
    /// A component of a twin, as it is printed; refused where there is no such twin, and where the twin has no such component.
    /// `Err` is want of memory.
    pub fn get_part(&self, id: &Text, name: &Text) -> Result<Reply, OutOfMemory>
        ensures allowed { IfOk result (Allows (state_of self.now) (Ask.GetPart id.now name.now)) }
        ensures follows { IfOk result (λ reply. follows (state_of self.now) (Ask.GetPart id.now name.now) reply ≡ state_of self.now) }
    {
        match self.twin(id) {
            Some(twin) => self.part_of(id, twin, name),
            None => twin_not_found(self.alloc, id),
        }
    }

    /// A component of this twin, as it is printed, where the twin has it.
    fn part_of(&self, id: &Text, twin: &Twin, name: &Text) -> Result<Reply, OutOfMemory>
        requires there { twin_at id.now (state_of self.now) ≡ Some (twin_view twin.now) }
        requires kept { IsKeptTwin (twin_view twin.now) }
        ensures allowed { IfOk result (Allows (state_of self.now) (Ask.GetPart id.now name.now)) }
    {
        kept_part();
        match value_in(&twin.parts, name.as_str()) {
            Some(part) => Ok(Reply::Body(part_tree(self.alloc, part)?)),
            None => component_not_found(self.alloc, name),
        }
    }
}
