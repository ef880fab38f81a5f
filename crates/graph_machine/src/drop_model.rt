//! The ask that lets a model go.

ghost use Rattle.std.specs.Prelude.{◌≡◌, IfOk, IsOk, IsSome, OnErr};
ghost use Rattle.graph_asks.specs.Answers.{done};
ghost use Rattle.model_life.specs.Models.{first_user, model_at};
ghost use Rattle.graph_steps.specs.Steps.{Allows, Answers, follows};
ghost use Rattle.graph_steps.specs.held.Held.{state_of};

use crate::answers::{id_text, model_not_found};
use crate::machine::Machine;
use dt_base::OutOfMemory;
use dt_base::names::Dtmi;
use graph_asks::{Ask, Refusal, Reply};
use model_life::DropEnd;

impl Machine {
    /// Lets a model go; refused where there is no such model, and where another one extends it directly or has a component
    /// of it. Takes no memory where it is done; else `Err` is want of memory, and nothing changes.
    pub fn drop_model(&mut self, id: &Dtmi) -> Result<Reply, OutOfMemory>
        ensures allowed { IfOk result (Allows (state_of self.old) (Ask.DropModel id.now)) }
        ensures follows { IfOk result (λ reply. state_of self.new ≡ follows (state_of self.old) (Ask.DropModel id.now) reply) }
        ensures unchanged { OnErr result (self.new ≡ self.old) }
        ensures free { Answers (state_of self.old) (Ask.DropModel id.now) done → IsOk result }
    {
        match self.models.drop_model(id) {
            Ok(_) => {
                self.resolutions.clear();
                Ok(Reply::Done)
            }
            Err(DropEnd::ModelNotFound) => model_not_found(self.alloc, id),
            Err(DropEnd::ModelInUse) => self.model_in_use(id),
        }
    }

    /// The refusal of a model that another one uses.
    fn model_in_use(&self, id: &Dtmi) -> Result<Reply, OutOfMemory>
        requires there { IsSome (model_at id.now self.now.models) }
        requires used { IsSome (first_user id.now self.now.models) }
        ensures allowed { IfOk result (Allows (state_of self.now) (Ask.DropModel id.now)) }
        ensures follows { IfOk result (λ reply. follows (state_of self.now) (Ask.DropModel id.now) reply ≡ state_of self.now) }
    {
        match self.models.used_by(id) {
            Some(by) => Ok(Reply::Refused(Refusal::ModelInUse {
                by: id_text(self.alloc, by)?,
            })),
            None => unreachable!(),
        }
    }
}
