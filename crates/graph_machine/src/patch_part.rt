//! The ask that patches a component of a twin.

ghost use Rattle.std.specs.Prelude.{◌≡◌, IfOk, MatchResult, OnErr};
ghost use Rattle.graph_steps.specs.bodies.Bodies.{FailsBy};
ghost use Rattle.graph_steps.specs.bodies.Kept.{twin_view};
ghost use Rattle.graph_steps.specs.Soundness.{IsSoundAsk};
ghost use Rattle.graph_steps.specs.States.{with_twin};
ghost use Rattle.graph_steps.specs.Steps.{Allows, Refuses, follows};
ghost use Rattle.graph_steps.specs.Typed.{WellTyped};
ghost use Rattle.graph_steps.specs.held.Held.{state_of};
ghost use Rattle.graph_machine.specs.Machinery.Brought.{BringsTwin};

use crate::answers::failed;
use crate::machine::Machine;
use dt_base::{OutOfMemory, Text};
use graph_asks::{Ask, Reply};
use graph_judges::twins::{NewTwin, judged_part_patch};
use graph_steps::bodies::BodyFailure;
use graph_steps::held::Lent;
use twin_patch::Patch;

impl Machine {
    /// Patches a component of a twin; refused, in this order, where the twin is not there, where it is frozen, where it has no
    /// such component, where an operation does not find what it needs, where the patched component has a breach, and where a
    /// limit would be passed. `Err` is want of memory, and nothing changes.
    pub fn patch_part(
        &mut self,
        id: &Text,
        name: &Text,
        patch: &Patch,
    ) -> Result<Reply, OutOfMemory>
        requires { IsSoundAsk (Ask.PatchPart id.now name.now patch.now) }
        ensures allowed { IfOk result (Allows (state_of self.old) (Ask.PatchPart id.now name.now patch.now)) }
        ensures follows { IfOk result (λ reply. state_of self.new ≡ follows (state_of self.old) (Ask.PatchPart id.now name.now patch.now) reply) }
        ensures unchanged { OnErr result (self.new ≡ self.old) }
    {
        match self.part_judged(id, name, patch) {
            Ok(new) => {
                let NewTwin { twin, bytes } = new;
                self.enter_twin(twin, bytes)?;
                Ok(Reply::Done)
            }
            Err(failure) => failed(failure),
        }
    }

    /// Judges a twin whose component is to be patched. What contracts see stays.
    fn part_judged(&mut self, id: &Text, name: &Text, patch: &Patch) -> Result<NewTwin, BodyFailure>
        requires { IsSoundAsk (Ask.PatchPart id.now name.now patch.now) }
        ensures judged { MatchResult result (λ new. BringsTwin (state_of self.old) (Ask.PatchPart id.now name.now patch.now) id.now new.twin new.bytes) (FailsBy (Refuses (state_of self.old) (Ask.PatchPart id.now name.now patch.now))) }
        ensures typed { IfOk result (λ new. WellTyped (with_twin (twin_view new.twin) (state_of self.old))) }
        ensures same { self.new ≡ self.old }
    {
        let lent = Lent::new(
            self.alloc,
            &self.models,
            &self.twins,
            &self.links,
            self.link_bytes,
        );
        judged_part_patch(&lent, &mut self.resolutions, id, name, patch)
    }
}
