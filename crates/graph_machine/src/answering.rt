//! Each ask answered by its own method.

ghost use Rattle.std.specs.Prelude.{◌≡◌, IfOk, IsOk, OnErr};
ghost use Rattle.graph_asks.specs.Answers.{done};
ghost use Rattle.graph_steps.specs.Soundness.{IsSoundAsk};
ghost use Rattle.graph_steps.specs.Steps.{Allows, Answers, follows};
ghost use Rattle.graph_machine.specs.Memory.{NeedsNoMemory};
ghost use Rattle.graph_steps.specs.held.Held.{state_of};

use crate::machine::Machine;
use dt_base::OutOfMemory;
use graph_asks::{Ask, Reply};

impl Machine {
    /// Answers an ask as the step of the graph does. `Err` is want of memory, and nothing changes; a mark and drops that are
    /// done take no memory.
    pub(crate) fn answered(&mut self, ask: &Ask) -> Result<Reply, OutOfMemory>
        requires { IsSoundAsk ask.now }
        ensures allowed { IfOk result (Allows (state_of self.old) ask.now) }
        ensures follows { IfOk result (λ reply. state_of self.new ≡ follows (state_of self.old) ask.now reply) }
        ensures unchanged { OnErr result (state_of self.new ≡ state_of self.old) }
        ensures free { NeedsNoMemory ask.now → Answers (state_of self.old) ask.now done → IsOk result }
    {
        match ask {
            Ask::PutModels { models } => self.put_models(models.as_slice()),
            Ask::GetModel { id } => self.get_model(id),
            Ask::ListModels => self.list_models(),
            Ask::Mark { id, on } => self.mark(id, *on),
            Ask::DropModel { id } => self.drop_model(id),
            Ask::Canon => self.canon(),
            Ask::PutTwin { id, model, body } => self.put_twin(id, model, body),
            Ask::GetTwin { id } => self.get_twin(id),
            Ask::PatchTwin { id, patch } => self.patch_twin(id, patch),
            Ask::DropTwin { id } => self.drop_twin(id),
            Ask::GetPart { id, name } => self.get_part(id, name),
            Ask::PatchPart { id, name, patch } => self.patch_part(id, name, patch),
            Ask::PutRel {
                source,
                id,
                name,
                target,
                body,
            } => self.put_rel(source, id, name, target, body),
            Ask::GetRel { source, id } => self.get_rel(source, id),
            Ask::PatchRel { source, id, patch } => self.patch_rel(source, id, patch),
            Ask::DropRel { source, id } => self.drop_rel(source, id),
            Ask::ListOut {
                source,
                name,
                after,
            } => self.list_out(source, name, after),
            Ask::ListIn { target, after } => self.list_in(target, after),
            Ask::Query { query, after } => self.query(query, after),
        }
    }
}
