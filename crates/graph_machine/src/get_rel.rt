//! The ask for one relationship.

ghost use Rattle.std.specs.Prelude.{◌≡◌, IfOk, true};
ghost use Rattle.std.specs.Option.{is_some};
ghost use Rattle.graph_steps.specs.States.{twin_at};
ghost use Rattle.graph_steps.specs.Steps.{Allows, follows};
ghost use Rattle.graph_steps.specs.held.Held.{state_of};

use crate::answers::{link_not_found, twin_not_found};
use crate::machine::Machine;
use dt_base::{OutOfMemory, Text};
use graph_asks::{Ask, Reply};
use graph_steps::held::stored_tree;

impl Machine {
    /// A relationship, as it is printed; refused where its source is not there, and where this has no such relationship.
    /// `Err` is want of memory.
    pub fn get_rel(&self, source: &Text, id: &Text) -> Result<Reply, OutOfMemory>
        ensures allowed { IfOk result (Allows (state_of self.now) (Ask.GetRel source.now id.now)) }
        ensures follows { IfOk result (λ reply. follows (state_of self.now) (Ask.GetRel source.now id.now) reply ≡ state_of self.now) }
    {
        match self.twin(source) {
            Some(_) => self.rel_of(source, id),
            None => twin_not_found(self.alloc, source),
        }
    }

    /// A relationship out of a twin that is there, as it is printed, where there is one.
    fn rel_of(&self, source: &Text, id: &Text) -> Result<Reply, OutOfMemory>
        requires there { is_some (twin_at source.now (state_of self.now)) ≡ true }
        ensures allowed { IfOk result (Allows (state_of self.now) (Ask.GetRel source.now id.now)) }
    {
        match self.link(source, id) {
            Some(link) => Ok(Reply::Body(stored_tree(self.alloc, link)?)),
            None => link_not_found(self.alloc, id),
        }
    }
}
