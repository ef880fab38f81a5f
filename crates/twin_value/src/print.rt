//! What is printed of twins and relationships.

ghost use Rattle.std.specs.Prelude.{◌≡◌, codes, IfOk, OnOk};
ghost use Rattle.dt_base.specs.names.Grammar.{dtmi_text};
ghost use Rattle.json_tree.specs.Values.{object, text, no_members, member};
ghost use Rattle.json_tree.specs.View.{view, members_view};
ghost use Rattle.json_tree.specs.Sorting.{IsSortedOf};
ghost use Rattle.twin_value.specs.Twins.{picked, any_key, with_metadata, twin_json, link_json};
ghost use Rattle.twin_value.specs.Machinery.Gathering.{PutsBehind};

use crate::gather::{ordered, push_all, push_made, push_text};
use crate::link::Relationship;
use crate::twin::Twin;
use dt_base::OutOfMemory;
use dt_base::names::Dtmi;
use json_tree::{Member, Tree, members_in};
use std::alloc::Global;

/// The `$metadata` of a twin of a model.
fn print_metadata(alloc: Global, model: &Dtmi) -> Result<Tree, OutOfMemory>
    ensures { IfOk result (λ t. IsSortedOf (object (member (codes "$model") (text (dtmi_text model.now)) no_members)) (view t)) }
{
    let mut members = Vec::with_capacity(alloc, 1)?;
    push_text(&mut members, alloc, "$model", model.as_str())?;
    Ok(ordered(members))
}

/// A component with the values of its properties, as it is printed: with an empty `$metadata`, and its members sorted at
/// every depth (this project's own). Fails only for want of memory.
pub fn print_part(alloc: Global, values: &Tree) -> Result<Tree, OutOfMemory>
    ensures { IfOk result (λ t. IsSortedOf (with_metadata (view values.now)) (view t)) }
{
    let from = members_in(values);
    let mut members = Vec::with_capacity(alloc, from.len().saturating_add(1))?;
    let metadata = ordered(Vec::new(alloc));
    push_made(&mut members, alloc, "$metadata", metadata)?;
    push_all(&mut members, alloc, from)?;
    Ok(ordered(members))
}

/// Puts components, as they are printed, behind other members.
fn push_parts(members: &mut Vec<Member>, alloc: Global, from: &[Member]) -> Result<(), OutOfMemory>
    ensures { OnOk result (PutsBehind members.old.items members.new.items (picked any_key with_metadata (members_view from.now))) }
{
    for member in from {
        let value = print_part(alloc, &member.value)?;
        push_made(members, alloc, member.key.as_str(), value)?;
    }
    Ok(())
}

/// The tree of a twin, as it is printed (this project's own): `$dtId`, `$metadata` with `$model` alone, the values of its
/// properties, and its components, each with an empty `$metadata`; members are sorted at every depth. Fails only for want
/// of memory.
pub fn print_twin(alloc: Global, t: &Twin) -> Result<Tree, OutOfMemory>
    ensures { IfOk result (λ tree. IsSortedOf (twin_json t.now) (view tree)) }
{
    let values = members_in(&t.values);
    let parts = members_in(&t.parts);
    let count = values.len().saturating_add(parts.len()).saturating_add(2);
    let mut members = Vec::with_capacity(alloc, count)?;
    push_text(&mut members, alloc, "$dtId", t.id.as_str())?;
    let metadata = print_metadata(alloc, &t.model)?;
    push_made(&mut members, alloc, "$metadata", metadata)?;
    push_all(&mut members, alloc, values)?;
    push_parts(&mut members, alloc, parts)?;
    Ok(ordered(members))
}

/// The tree of a relationship, as it is printed (this project's own): `$relationshipId`, `$relationshipName`, `$sourceId`,
/// `$targetId` and the values of its properties; members are sorted at every depth. Fails only for want of memory.
pub fn print_rel(alloc: Global, r: &Relationship) -> Result<Tree, OutOfMemory>
    ensures { IfOk result (λ tree. IsSortedOf (link_json r.now) (view tree)) }
{
    let values = members_in(&r.payload);
    let mut members = Vec::with_capacity(alloc, values.len().saturating_add(4))?;
    push_text(&mut members, alloc, "$relationshipId", r.id.as_str())?;
    push_text(&mut members, alloc, "$relationshipName", r.name.as_str())?;
    push_text(&mut members, alloc, "$sourceId", r.source.as_str())?;
    push_text(&mut members, alloc, "$targetId", r.target.as_str())?;
    push_all(&mut members, alloc, values)?;
    Ok(ordered(members))
}
