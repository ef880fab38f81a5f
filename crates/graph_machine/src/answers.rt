//! Refusals that several asks have.

ghost use Rattle.std.specs.Prelude.{◌≡◌, IfOk};
ghost use Rattle.dt_base.specs.names.Grammar.{dtmi_text};
ghost use Rattle.graph_asks.specs.declared.refusal.Refusal.{Refusal as Refusals};

use dt_base::names::Dtmi;
use dt_base::{OutOfMemory, Text};
use graph_asks::{Refusal, Reply};
use graph_steps::bodies::BodyFailure;
use std::alloc::Global;

/// The text of an identifier.
pub(crate) fn id_text(alloc: Global, id: &Dtmi) -> Result<Text, OutOfMemory>
    ensures { IfOk result (λ text. text ≡ dtmi_text id.now) }
{
    Text::from_str(alloc, id.as_str())
}

/// There is no model with this identifier.
pub(crate) fn model_not_found(alloc: Global, id: &Dtmi) -> Result<Reply, OutOfMemory>
    ensures { IfOk result (λ reply. reply ≡ Reply.Refused (Refusal.ModelNotFound (dtmi_text id.now))) }
{
    Ok(Reply::Refused(Refusal::ModelNotFound {
        id: id_text(alloc, id)?,
    }))
}

/// There is no twin with this id.
pub(crate) fn twin_not_found(alloc: Global, id: &Text) -> Result<Reply, OutOfMemory>
    ensures { IfOk result (λ reply. reply ≡ Reply.Refused (Refusal.TwinNotFound id.now)) }
{
    Ok(Reply::Refused(Refusal::TwinNotFound {
        id: id.copy(alloc)?,
    }))
}

/// There is no relationship with this id.
pub(crate) fn link_not_found(alloc: Global, id: &Text) -> Result<Reply, OutOfMemory>
    ensures { IfOk result (λ reply. reply ≡ Reply.Refused (Refusal.RelationshipNotFound id.now)) }
{
    Ok(Reply::Refused(Refusal::RelationshipNotFound {
        id: id.copy(alloc)?,
    }))
}

/// There is no component of this name.
pub(crate) fn component_not_found(alloc: Global, name: &Text) -> Result<Reply, OutOfMemory>
    ensures { IfOk result (λ reply. reply ≡ Reply.Refused (Refusal.ComponentNotFound name.now)) }
{
    Ok(Reply::Refused(Refusal::ComponentNotFound {
        id: name.copy(alloc)?,
    }))
}

/// What is answered where a judge lets nothing come: its refusal, unless memory is wanting.
pub(crate) fn failed(failure: BodyFailure) -> Result<Reply, OutOfMemory>
    ensures { IfOk result (λ reply. (r : Refusals) × (failure ≡ BodyFailure.Refused r) × (reply ≡ Reply.Refused r)) }
{
    match failure {
        BodyFailure::Refused(refusal) => Ok(Reply::Refused(refusal)),
        BodyFailure::OutOfMemory => Err(OutOfMemory),
    }
}
