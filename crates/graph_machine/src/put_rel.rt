//! The ask that brings a relationship.

ghost use Rattle.std.specs.Prelude.{◌≡◌, IfOk, MatchResult, OnErr};
ghost use Rattle.graph_steps.specs.bodies.Bodies.{FailsBy};
ghost use Rattle.graph_steps.specs.LinkAsks.{with_link};
ghost use Rattle.graph_steps.specs.Soundness.{IsSoundAsk};
ghost use Rattle.graph_steps.specs.Steps.{Allows, Refuses, follows};
ghost use Rattle.graph_steps.specs.Typed.{WellTyped};
ghost use Rattle.graph_steps.specs.held.Held.{state_of, link_of};
ghost use Rattle.graph_machine.specs.Machinery.Brought.{BringsLink};

use crate::answers::failed;
use crate::machine::Machine;
use dt_base::{OutOfMemory, Text};
use graph_asks::{Ask, Reply};
use graph_judges::links::{NewLink, judged_rel};
use graph_steps::bodies::BodyFailure;
use graph_steps::held::Lent;
use json_tree::Tree;

impl Machine {
    /// Takes a relationship, at its place or in place of the one with its source and id; refused, in this order, where the
    /// source is not there, where it is frozen, where the body has a breach, where the target is not there or of another model,
    /// where there would be too many of the name, and where a limit would be passed. `Err` is want of memory, and nothing
    /// changes.
    pub fn put_rel(
        &mut self,
        source: &Text,
        id: &Text,
        name: &Text,
        target: &Text,
        body: &Tree,
    ) -> Result<Reply, OutOfMemory>
        requires { IsSoundAsk (Ask.PutRel source.now id.now name.now target.now body.now) }
        ensures allowed { IfOk result (Allows (state_of self.old) (Ask.PutRel source.now id.now name.now target.now body.now)) }
        ensures follows { IfOk result (λ reply. state_of self.new ≡ follows (state_of self.old) (Ask.PutRel source.now id.now name.now target.now body.now) reply) }
        ensures unchanged { OnErr result (self.new ≡ self.old) }
    {
        match self.rel_judged(source, id, name, target, body) {
            Ok(new) => {
                let NewLink { edge, tree } = new;
                self.enter_link(edge)?;
                Ok(Reply::Body(tree))
            }
            Err(failure) => failed(failure),
        }
    }

    /// Judges a relationship that is to come. What contracts see stays.
    fn rel_judged(
        &mut self,
        source: &Text,
        id: &Text,
        name: &Text,
        target: &Text,
        body: &Tree,
    ) -> Result<NewLink, BodyFailure>
        requires { IsSoundAsk (Ask.PutRel source.now id.now name.now target.now body.now) }
        ensures judged { MatchResult result (λ new. BringsLink (state_of self.old) (Ask.PutRel source.now id.now name.now target.now body.now) source.now id.now new.edge new.tree) (FailsBy (Refuses (state_of self.old) (Ask.PutRel source.now id.now name.now target.now body.now))) }
        ensures typed { IfOk result (λ new. WellTyped (with_link (link_of new.edge) (state_of self.old))) }
        ensures same { self.new ≡ self.old }
    {
        let lent = Lent::new(
            self.alloc,
            &self.models,
            &self.twins,
            &self.links,
            self.link_bytes,
        );
        judged_rel(&lent, &mut self.resolutions, source, id, name, target, body)
    }
}
