//! What an ask speaks of and is not there, or is frozen.

ghost use Rattle.std.specs.Prelude.{◌≡◌};
ghost use Rattle.dt_base.specs.names.Grammar.{dtmi_text};
ghost use Rattle.graph_steps.specs.bodies.Bodies.{FailsBy};

use dt_base::{OutOfMemory, Text};
use graph_asks::Refusal;
use graph_steps::bodies::BodyFailure;
use std::alloc::Global;
use twin_value::Twin;

/// There is no twin with this id.
pub(crate) fn no_twin(alloc: Global, id: &Text) -> BodyFailure
    ensures { FailsBy (λ refusal. refusal ≡ Refusal.TwinNotFound id.now) result }
{
    match id.copy(alloc) {
        Ok(id) => BodyFailure::Refused(Refusal::TwinNotFound { id }),
        Err(OutOfMemory) => BodyFailure::OutOfMemory,
    }
}

/// There is no relationship with this id.
pub(crate) fn no_link(alloc: Global, id: &Text) -> BodyFailure
    ensures { FailsBy (λ refusal. refusal ≡ Refusal.RelationshipNotFound id.now) result }
{
    match id.copy(alloc) {
        Ok(id) => BodyFailure::Refused(Refusal::RelationshipNotFound { id }),
        Err(OutOfMemory) => BodyFailure::OutOfMemory,
    }
}

/// The model of this twin is not there.
pub(crate) fn frozen(alloc: Global, twin: &Twin) -> BodyFailure
    ensures { FailsBy (λ refusal. refusal ≡ Refusal.Frozen (dtmi_text twin.now.model)) result }
{
    match Text::from_str(alloc, twin.model.as_str()) {
        Ok(model) => BodyFailure::Refused(Refusal::Frozen { model }),
        Err(OutOfMemory) => BodyFailure::OutOfMemory,
    }
}
