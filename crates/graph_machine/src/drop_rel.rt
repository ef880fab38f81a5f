//! The ask that lets a relationship go.

ghost use Rattle.std.specs.Prelude.{◌≡◌, IfOk, IsOk, OnErr, true};
ghost use Rattle.std.specs.Option.{is_some};
ghost use Rattle.graph_asks.specs.Answers.{done};
ghost use Rattle.graph_steps.specs.LinkAsks.{after_drop_rel};
ghost use Rattle.graph_steps.specs.States.{twin_at};
ghost use Rattle.graph_steps.specs.Steps.{Allows, Answers, follows};
ghost use Rattle.graph_steps.specs.held.Held.{state_of};

use crate::answers::{link_not_found, twin_not_found};
use crate::machine::Machine;
use dt_base::{OutOfMemory, Text};
use graph_asks::{Ask, Reply};

impl Machine {
    /// Lets a relationship go; refused where its source is not there, and where this has no such relationship. Takes no memory
    /// where it is done; else `Err` is want of memory, and nothing changes.
    pub fn drop_rel(&mut self, source: &Text, id: &Text) -> Result<Reply, OutOfMemory>
        ensures allowed { IfOk result (Allows (state_of self.old) (Ask.DropRel source.now id.now)) }
        ensures follows { IfOk result (λ reply. state_of self.new ≡ follows (state_of self.old) (Ask.DropRel source.now id.now) reply) }
        ensures unchanged { OnErr result (self.new ≡ self.old) }
        ensures free { Answers (state_of self.old) (Ask.DropRel source.now id.now) done → IsOk result }
    {
        if self.has_twin(source) {
            return self.drop_link(source, id);
        }
        twin_not_found(self.alloc, source)
    }

    /// Lets a relationship out of a twin that is there go.
    fn drop_link(&mut self, source: &Text, id: &Text) -> Result<Reply, OutOfMemory>
        requires there { is_some (twin_at source.now (state_of self.old)) ≡ true }
        ensures allowed { IfOk result (Allows (state_of self.old) (Ask.DropRel source.now id.now)) }
        ensures follows { IfOk result (λ reply. state_of self.new ≡ follows (state_of self.old) (Ask.DropRel source.now id.now) reply) }
        ensures unchanged { OnErr result (self.new ≡ self.old) }
        ensures free { Answers (state_of self.old) (Ask.DropRel source.now id.now) done → IsOk result }
    {
        if self.has_link(source, id) {
            self.take_link(source, id);
            return Ok(Reply::Done);
        }
        link_not_found(self.alloc, id)
    }

    /// Takes out the relationship of a source with an id. Takes no memory.
    fn take_link(&mut self, source: &Text, id: &Text)
        ensures { state_of self.new ≡ after_drop_rel (state_of self.old) source.now id.now }
    {
        let Some(edge) = self.links.remove(source, id) else {
            return;
        };
        self.link_bytes = self.link_bytes.saturating_sub(edge.payload.bytes);
    }
}
