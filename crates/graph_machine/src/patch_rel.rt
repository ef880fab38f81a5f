//! The ask that patches a relationship.

ghost use Rattle.std.specs.Prelude.{◌≡◌, IfOk, MatchResult, OnErr};
ghost use Rattle.graph_steps.specs.bodies.Bodies.{FailsBy};
ghost use Rattle.graph_steps.specs.LinkAsks.{with_link};
ghost use Rattle.graph_steps.specs.Soundness.{IsSoundAsk};
ghost use Rattle.graph_steps.specs.Steps.{Allows, Refuses, follows};
ghost use Rattle.graph_steps.specs.Typed.{WellTyped};
ghost use Rattle.graph_steps.specs.held.Held.{state_of, link_of};
ghost use Rattle.graph_machine.specs.Machinery.Brought.{BringsLink};

use crate::answers::failed;
use crate::machine::Machine;
use dt_base::{OutOfMemory, Text};
use graph_asks::{Ask, Reply};
use graph_judges::links::{NewLink, judged_rel_patch};
use graph_steps::bodies::BodyFailure;
use graph_steps::held::Lent;
use twin_patch::Patch;

impl Machine {
    /// Patches a relationship; refused, in this order, where the source is not there, where this has no such relationship, where
    /// the source is frozen, where an operation does not find what it needs, where the patched body has a breach, and where a
    /// limit would be passed. `Err` is want of memory, and nothing changes.
    pub fn patch_rel(
        &mut self,
        source: &Text,
        id: &Text,
        patch: &Patch,
    ) -> Result<Reply, OutOfMemory>
        requires { IsSoundAsk (Ask.PatchRel source.now id.now patch.now) }
        ensures allowed { IfOk result (Allows (state_of self.old) (Ask.PatchRel source.now id.now patch.now)) }
        ensures follows { IfOk result (λ reply. state_of self.new ≡ follows (state_of self.old) (Ask.PatchRel source.now id.now patch.now) reply) }
        ensures unchanged { OnErr result (self.new ≡ self.old) }
    {
        match self.rel_patch_judged(source, id, patch) {
            Ok(new) => {
                let NewLink { edge, tree: _tree } = new;
                self.enter_link(edge)?;
                Ok(Reply::Done)
            }
            Err(failure) => failed(failure),
        }
    }

    /// Judges a relationship that is to be patched. What contracts see stays.
    fn rel_patch_judged(
        &mut self,
        source: &Text,
        id: &Text,
        patch: &Patch,
    ) -> Result<NewLink, BodyFailure>
        requires { IsSoundAsk (Ask.PatchRel source.now id.now patch.now) }
        ensures judged { MatchResult result (λ new. BringsLink (state_of self.old) (Ask.PatchRel source.now id.now patch.now) source.now id.now new.edge new.tree) (FailsBy (Refuses (state_of self.old) (Ask.PatchRel source.now id.now patch.now))) }
        ensures typed { IfOk result (λ new. WellTyped (with_link (link_of new.edge) (state_of self.old))) }
        ensures same { self.new ≡ self.old }
    {
        let lent = Lent::new(
            self.alloc,
            &self.models,
            &self.twins,
            &self.links,
            self.link_bytes,
        );
        judged_rel_patch(&lent, &mut self.resolutions, source, id, patch)
    }
}
