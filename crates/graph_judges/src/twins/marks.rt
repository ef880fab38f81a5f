//! Models that take no more twins.

ghost use Rattle.std.specs.Prelude.{◌≡◌, ◌↔◌, true, IsTrue, MatchResult};
ghost use Rattle.std.specs.Option.{IsSomeAnd};
ghost use Rattle.dt_base.specs.names.Grammar.{dtmi_text};
ghost use Rattle.graph_steps.specs.bodies.Bodies.{FailsBy};
ghost use Rattle.graph_steps.specs.held.Held.{state_of};
ghost use Rattle.graph_steps.specs.States.{twin_at};
ghost use Rattle.graph_steps.specs.TwinAsks.{Decommissioned};
ghost use Rattle.graph_steps.specs.Typed.{WellTyped};
ghost use Rattle.model_life.specs.Models.{model_at};
ghost use Rattle.graph_steps.specs.held.Judged.{Unrefused};

use crate::twins::refusals::decommissioned;
use dt_base::Text;
use dt_base::names::Dtmi;
use graph_steps::bodies::BodyFailure;
use graph_steps::held::Lent;

/// Whether the model with an identifier is there and decommissioned. Takes no memory.
fn is_marked(lent: &Lent<'_>, model: &Dtmi) -> bool
    ensures { IsTrue result ↔ IsSomeAnd (model_at model.now lent.now.models) (λ m. m.decommissioned ≡ true) }
{
    match lent.models().get(model) {
        Some((_interface, marked)) => marked,
        None => false,
    }
}

/// Whether the twin with an id is there and of the model with an identifier. Takes no memory.
fn is_of(lent: &Lent<'_>, id: &Text, model: &Dtmi) -> bool
    ensures { IsTrue result ↔ IsSomeAnd (twin_at id.now (state_of lent.now)) (λ t. dtmi_text t.model ≡ dtmi_text model.now) }
{
    match lent.twin(id) {
        Some(twin) => twin.model == *model,
        None => false,
    }
}

/// Refuses where the model with an identifier is decommissioned and the twin with an id is new to it, or for want of memory.
pub(crate) fn unless_marked(lent: &Lent<'_>, id: &Text, model: &Dtmi) -> Result<(), BodyFailure>
    requires { WellTyped (state_of lent.now) }
    ensures { MatchResult result
        (λ _. Unrefused (Decommissioned (state_of lent.now) id.now (dtmi_text model.now)))
        (FailsBy (Decommissioned (state_of lent.now) id.now (dtmi_text model.now))) }
{
    if !is_marked(lent, model) {
        return Ok(());
    }
    if is_of(lent, id, model) {
        return Ok(());
    }
    let refusal = decommissioned(lent.alloc(), model)?;
    Err(BodyFailure::Refused(refusal))
}
