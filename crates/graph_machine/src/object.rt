//! The machine as an object that answers one ask at a time.

ghost use Rattle.std.specs.Prelude.{◌≡◌, IfOk, IsOk, OnErr};
ghost use Rattle.graph_asks.specs.Answers.{done};
ghost use Rattle.graph_steps.specs.invariants.Frozen.{FrozenStay};
ghost use Rattle.graph_steps.specs.Soundness.{IsSoundAsk};
ghost use Rattle.graph_steps.specs.Steps.{Allows, Answers, follows};
ghost use Rattle.graph_steps.specs.States.{State};
ghost use Rattle.graph_machine.specs.Memory.{NeedsNoMemory};
ghost use Rattle.graph_steps.specs.held.Held.{state_of};

use crate::machine::Machine;
use dt_base::{Object, OutOfMemory};
use graph_asks::{Ask, Reply};
use graph_steps::invariants::stays_frozen;

impl Object for Machine {
    type Ask = Ask;

    type Reply = Reply;

    ghost State = { State };

    ghost state = { state_of };

    ghost sound = { IsSoundAsk };

    ghost allowed = { Allows };

    ghost follows = { follows };

    /// Answers an ask. The answer and the state that follows are those of the step of the graph. A twin whose model is not
    /// there stays as it is with the relationships out of it, but for what the ask drops, and is live again only where models
    /// come. `Err` is want of memory, and nothing changes; a mark and drops that are done take no memory.
    fn step(&mut self, ask: &Ask) -> Result<Reply, OutOfMemory>
        requires sound { IsSoundAsk ask.now }
        ensures allowed { IfOk result (Allows (state_of self.old) ask.now) }
        ensures follows { IfOk result (λ reply. state_of self.new ≡ follows (state_of self.old) ask.now reply) }
        ensures unchanged { OnErr result (state_of self.new ≡ state_of self.old) }
        ensures frozen { IfOk result (λ _. FrozenStay (state_of self.old) ask.now (state_of self.new)) }
        ensures free { NeedsNoMemory ask.now → Answers (state_of self.old) ask.now done → IsOk result }
    {
        stays_frozen();
        self.typed();
        self.answered(ask)
    }
}
