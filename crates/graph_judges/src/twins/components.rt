//! Twins one component of which changes.

ghost use Rattle.std.specs.Prelude.{◌≡◌, [], ◌∷◌, IfOk, IsSome};
ghost use Rattle.graph_steps.specs.bodies.Kept.{twin_view, IsKeptTwin, IsKeptPart};
ghost use Rattle.graph_steps.specs.TwinAsks.{component_at, with_part};
ghost use Rattle.json_tree.specs.Values.{Json};
ghost use Rattle.json_tree.specs.View.{view};
ghost use Rattle.twin_patch.specs.Objects.{sorted_value};
ghost use Rattle.twin_patch.specs.declared.patch.OpKind.TheVariants as kinds;
ghost use Rattle.twin_value.specs.Twins.{without_metadata};

use dt_base::{List, OutOfMemory, Text};
use json_tree::Tree;
use std::alloc::Global;
use twin_patch::{ApplyEnd, Op, OpKind, Patch, apply};
use twin_value::Twin;

/// The patch that replaces the member of this key. Fails only for want of memory.
fn replacing(alloc: Global, key: &Text, value: Tree) -> Result<Patch, OutOfMemory>
    ensures { IfOk result (λ patch. patch ≡ record { ops = record { kind = kinds.Replace value; path = key.now ∷ [] } ∷ [] }) }
{
    let mut path = List::new(alloc);
    path.push(key.copy(alloc)?)?;
    let mut ops = List::new(alloc);
    ops.push(Op {
        kind: OpKind::Replace(value),
        path,
    })?;
    Ok(Patch { ops })
}

/// The components of a twin with these values as those of one that it has. Fails only for want of memory.
fn with_values(alloc: Global, twin: &Twin, name: &Text, values: Tree) -> Result<Tree, OutOfMemory>
    requires kept { IsKeptTwin (twin_view twin.now) }
    requires part { IsKeptPart (view values) }
    requires there { IsSome (component_at name.now (twin_view twin.now)) }
    ensures { IfOk result (λ parts. (v : Json) → view values ≡ sorted_value (without_metadata v) → view parts ≡ (with_part name.now v (twin_view twin.now)).parts) }
{
    let patch = replacing(alloc, name, values)?;
    match apply(alloc, &twin.parts, &patch) {
        Ok(parts) => Ok(parts),
        Err(ApplyEnd::OutOfMemory) => Err(OutOfMemory),
        Err(ApplyEnd::NoTarget { .. }) => unreachable!(),
    }
}

/// The twin with these values as those of a component that it has. Fails only for want of memory.
pub(crate) fn with_component(
    alloc: Global,
    twin: &Twin,
    name: &Text,
    values: Tree,
) -> Result<Twin, OutOfMemory>
    requires kept { IsKeptTwin (twin_view twin.now) }
    requires part { IsKeptPart (view values) }
    requires there { IsSome (component_at name.now (twin_view twin.now)) }
    ensures twin { IfOk result (λ t. (v : Json) → view values ≡ sorted_value (without_metadata v) → twin_view t ≡ with_part name.now v (twin_view twin.now)) }
{
    let parts = with_values(alloc, twin, name, values)?;
    let id = twin.id.copy(alloc)?;
    let model = twin.model.copy(alloc)?;
    let values = twin.values.copy(alloc)?;
    Ok(Twin {
        id,
        model,
        values,
        parts,
    })
}
