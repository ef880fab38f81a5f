//! What relationships lead to.

ghost use Rattle.std.specs.Prelude.{◌≡◌, IfOk, List, Some, ℕ};
ghost use Rattle.dt_base.specs.names.Grammar.{dtmi_text};
ghost use Rattle.graph_steps.specs.bodies.Kept.{twin_view};
ghost use Rattle.graph_steps.specs.held.Held.{state_of};
ghost use Rattle.graph_steps.specs.LinkAsks.{WrongTarget, misses};
ghost use Rattle.graph_steps.specs.States.{interface_of, twin_at};
ghost use Rattle.graph_judges.specs.links.Machinery.Refused.{TellsRefusal};

use dt_base::names::Dtmi;
use dt_base::{OutOfMemory, Text};
use dtdl_terms::ResolvedContent;
use graph_asks::Refusal;
use graph_steps::bodies::is_model_a;
use graph_steps::held::{Lent, target_of};
use std::alloc::Global;
use twin_value::Twin;

/// Whether the model of a twin neither is nor extends the declared one; of a frozen twin, whether it is not the declared one.
/// Takes no memory.
fn misses(lent: &Lent<'_>, declared: &Dtmi, twin: &Twin) -> bool
    ensures { result ≡ misses (state_of lent.now) declared.now (twin_view twin.now) (interface_of (state_of lent.now) twin.now.model) }
{
    let models = lent.models();
    models.sound();
    match lent.interface(&twin.model) {
        Some(interface) => !is_model_a(models.set(), interface, declared),
        None => twin.model.as_str() != declared.as_str(),
    }
}

/// The twin's model is not what the relationship is to lead to.
fn wrong_target(alloc: Global, twin: &Twin) -> Result<Refusal, OutOfMemory>
    ensures { IfOk result (λ refusal. refusal ≡ Refusal.WrongTarget (dtmi_text twin.now.model)) }
{
    let model = Text::from_str(alloc, twin.model.as_str())?;
    Ok(Refusal::WrongTarget { model })
}

/// The refusal of a relationship that leads to a twin of another model than its content declares. Fails only for want of
/// memory.
pub(crate) fn target_refusal(
    lent: &Lent<'_>,
    content: &ResolvedContent,
    target: &Text,
    twin: &Twin,
) -> Result<Option<Refusal>, OutOfMemory>
    requires { twin_at target.now (state_of lent.now) ≡ Some (twin_view twin.now) }
    ensures { IfOk result (TellsRefusal (WrongTarget (state_of lent.now) (Some content.now) target.now)) }
{
    let Some(declared) = target_of(&content.content.kind) else {
        return Ok(None);
    };
    if misses(lent, declared, twin) {
        let refusal = wrong_target(lent.alloc(), twin)?;
        return Ok(Some(refusal));
    }
    Ok(None)
}
