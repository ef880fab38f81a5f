//! Why asks that bring twins are refused, in memory of its own.

ghost use Rattle.std.specs.Prelude.{◌≡◌, IfOk};
ghost use Rattle.dt_base.specs.names.Grammar.{dtmi_text};
ghost use Rattle.graph_asks.specs.declared.refusal.Refusal.TheVariants as refusals;

use dt_base::names::Dtmi;
use dt_base::{OutOfMemory, Text};
use graph_asks::Refusal;
use graph_steps::held::Stored;
use rel_graph::Edge;
use std::alloc::Global;

/// There is no twin with this id. Fails only for want of memory.
pub(crate) fn twin_not_found(alloc: Global, id: &Text) -> Result<Refusal, OutOfMemory>
    ensures { IfOk result (λ refusal. refusal ≡ refusals.TwinNotFound id.now) }
{
    let id = id.copy(alloc)?;
    Ok(Refusal::TwinNotFound { id })
}

/// The twin has no component of this name. Fails only for want of memory.
pub(crate) fn component_not_found(alloc: Global, name: &Text) -> Result<Refusal, OutOfMemory>
    ensures { IfOk result (λ refusal. refusal ≡ refusals.ComponentNotFound name.now) }
{
    let id = name.copy(alloc)?;
    Ok(Refusal::ComponentNotFound { id })
}

/// There is no model with this identifier. Fails only for want of memory.
pub(crate) fn model_not_found(alloc: Global, model: &Dtmi) -> Result<Refusal, OutOfMemory>
    ensures { IfOk result (λ refusal. refusal ≡ refusals.ModelNotFound (dtmi_text model.now)) }
{
    let id = Text::from_str(alloc, model.as_str())?;
    Ok(Refusal::ModelNotFound { id })
}

/// The twin's model, which is this one, is not there. Fails only for want of memory.
pub(crate) fn frozen(alloc: Global, model: &Dtmi) -> Result<Refusal, OutOfMemory>
    ensures { IfOk result (λ refusal. refusal ≡ refusals.Frozen (dtmi_text model.now)) }
{
    let model = Text::from_str(alloc, model.as_str())?;
    Ok(Refusal::Frozen { model })
}

/// The model with this identifier takes no more twins. Fails only for want of memory.
pub(crate) fn decommissioned(alloc: Global, model: &Dtmi) -> Result<Refusal, OutOfMemory>
    ensures { IfOk result (λ refusal. refusal ≡ refusals.Decommissioned (dtmi_text model.now)) }
{
    let model = Text::from_str(alloc, model.as_str())?;
    Ok(Refusal::Decommissioned { model })
}

/// This relationship would not be well typed. Fails only for want of memory.
pub(crate) fn does_not_fit(alloc: Global, link: &Edge<Stored>) -> Result<Refusal, OutOfMemory>
    ensures { IfOk result (λ refusal. refusal ≡ refusals.DoesNotFit link.now.id link.now.source) }
{
    let id = link.id.copy(alloc)?;
    let source = link.source.copy(alloc)?;
    Ok(Refusal::DoesNotFit { id, source })
}
