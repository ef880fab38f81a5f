//! The model that a body names.

ghost use Rattle.std.specs.Prelude.{◌≡◌, IfOk, IsSome, Some};
ghost use Rattle.dt_base.specs.names.Grammar.{dtmi_text};
ghost use Rattle.dt_base.specs.declared.names.fault.NameFault.TheVariants as faults;
ghost use Rattle.json_tree.specs.View.{view};
ghost use Rattle.twin_value.specs.Breaches.{HasNoBreach, IsOuterBreach};
ghost use Rattle.twin_value.specs.Twins.{model_text};

use dt_base::OutOfMemory;
use dt_base::names::{Dtmi, NameFault};
use json_tree::{Tree, members_in, text_at, value_in};
use std::alloc::Global;

/// The `$model` of a body's `$metadata`.
fn model_text(tree: &Tree) -> &str
    requires { IsSome (model_text (view tree.now)) }
    ensures { model_text (view tree.now) ≡ Some result.now }
{
    let Some(metadata) = value_in(tree, "$metadata") else {
        unreachable!()
    };
    let Some(text) = text_at(members_in(metadata), "$model") else {
        unreachable!()
    };
    text
}

/// Why the identifier of a model was not read: for want of memory alone.
fn want_of_memory(fault: NameFault) -> OutOfMemory
    requires { fault ≡ faults.OutOfMemory }
{
    match fault {
        NameFault::OutOfMemory => OutOfMemory,
        _ => unreachable!(),
    }
}

/// The model that a body names which has no breach that shows without a model. Fails only for want of memory.
pub(crate) fn model_of(alloc: Global, tree: &Tree) -> Result<Dtmi, OutOfMemory>
    requires { HasNoBreach (IsOuterBreach (view tree.now)) }
    ensures { IfOk result (λ model. model_text (view tree.now) ≡ Some (dtmi_text model)) }
{
    match Dtmi::read(alloc, model_text(tree)) {
        Ok(model) => Ok(model),
        Err(fault) => Err(want_of_memory(fault)),
    }
}
