//! The ask that brings a twin.

ghost use Rattle.std.specs.Prelude.{◌≡◌, IfOk, MatchResult, OnErr};
ghost use Rattle.graph_steps.specs.bodies.Bodies.{FailsBy};
ghost use Rattle.graph_steps.specs.bodies.Kept.{twin_view};
ghost use Rattle.graph_steps.specs.Soundness.{IsSoundAsk};
ghost use Rattle.graph_steps.specs.States.{with_twin};
ghost use Rattle.graph_steps.specs.Steps.{Allows, Refuses, follows};
ghost use Rattle.graph_steps.specs.Typed.{WellTyped};
ghost use Rattle.graph_steps.specs.held.Held.{state_of};
ghost use Rattle.graph_machine.specs.Machinery.Brought.{BringsTwin};

use crate::answers::failed;
use crate::machine::Machine;
use dt_base::names::Dtmi;
use dt_base::{OutOfMemory, Text};
use graph_asks::{Ask, Reply};
use graph_judges::twins::{NewTwin, judged_put};
use graph_steps::bodies::{BodyFailure, twin_tree};
use graph_steps::held::Lent;
use json_tree::Tree;

impl Machine {
    /// Takes a twin, at its place or in place of the one with its id; refused, in this order, where the one in its place is
    /// frozen, where there is no such model, where the model is decommissioned and the twin is not of it already, where the body
    /// has a breach, where a relationship of the twin would no longer be well typed, and where a limit would be passed. `Err` is
    /// want of memory, and nothing changes.
    pub fn put_twin(&mut self, id: &Text, model: &Dtmi, body: &Tree) -> Result<Reply, OutOfMemory>
        requires { IsSoundAsk (Ask.PutTwin id.now model.now body.now) }
        ensures allowed { IfOk result (Allows (state_of self.old) (Ask.PutTwin id.now model.now body.now)) }
        ensures follows { IfOk result (λ reply. state_of self.new ≡ follows (state_of self.old) (Ask.PutTwin id.now model.now body.now) reply) }
        ensures unchanged { OnErr result (self.new ≡ self.old) }
    {
        match self.twin_judged(id, model, body) {
            Ok(new) => {
                let NewTwin { twin, bytes } = new;
                // Made before the twin comes, so that want of memory changes nothing.
                let tree = twin_tree(self.alloc, &twin)?;
                self.enter_twin(twin, bytes)?;
                Ok(Reply::Body(tree))
            }
            Err(failure) => failed(failure),
        }
    }

    /// Judges a twin that is to come. What contracts see stays.
    fn twin_judged(&mut self, id: &Text, model: &Dtmi, body: &Tree) -> Result<NewTwin, BodyFailure>
        requires { IsSoundAsk (Ask.PutTwin id.now model.now body.now) }
        ensures judged { MatchResult result (λ new. BringsTwin (state_of self.old) (Ask.PutTwin id.now model.now body.now) id.now new.twin new.bytes) (FailsBy (Refuses (state_of self.old) (Ask.PutTwin id.now model.now body.now))) }
        ensures typed { IfOk result (λ new. WellTyped (with_twin (twin_view new.twin) (state_of self.old))) }
        ensures same { self.new ≡ self.old }
    {
        let lent = Lent::new(
            self.alloc,
            &self.models,
            &self.twins,
            &self.links,
            self.link_bytes,
        );
        judged_put(&lent, &mut self.resolutions, id, model, body)
    }
}
