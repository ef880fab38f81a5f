//! Contents by their kinds, as trees.

ghost use Rattle.std.specs.Prelude.{◌≡◌, [], ◌∷◌, ◌++◌, map, Some, codes, IfOk, OnOk};
ghost use Rattle.std.specs.Option.{option_map};
ghost use Rattle.json_tree.specs.View.{view, member_view};
ghost use Rattle.json_tree.specs.Values.{text, array, elements_of};
ghost use Rattle.dtdl_terms.specs.Terms.{content, telemetry, property, command, component};
ghost use Rattle.dtdl_terms.specs.TermViews.{schema_term, payload_term};
ghost use Rattle.canon_text.specs.Canonical.{element_parts, content_value, schema_value, typed, writable_value, payload_value, most_value};
ghost use Rattle.canon_text.specs.Objects.{present};
ghost use Rattle.canon_text.specs.Machinery.Pairs.{IsPut};

use crate::common::text;
use crate::numbers::of_size;
use crate::parts::{element, object, put, put_optional_name, put_text};
use crate::schemas::{payload, schema};
use dt_base::names::{Dtmi, Name};
use dt_base::{List, OutOfMemory};
use dtdl_terms::{Boxed, Content, Payload, Schema};
use json_tree::{Member, Tree};
use std::alloc::Global;

/// A type, or a list of it and the semantic type.
pub(crate) fn typed(alloc: Global, kind: &str, semantic: &Option<Name>) -> Result<Tree, OutOfMemory>
    ensures { IfOk result (λ tree. view tree ≡ typed kind.now semantic.now) }
{
    match semantic {
        Some(name) => two_texts(alloc, kind, name.as_str()),
        None => text(alloc, kind),
    }
}

/// A list of two texts.
fn two_texts(alloc: Global, first: &str, second: &str) -> Result<Tree, OutOfMemory>
    ensures { IfOk result (λ tree. view tree ≡ array (elements_of (text first.now ∷ text second.now ∷ []))) }
{
    let mut items = List::from_vec(Vec::with_capacity(alloc, 2)?);
    items.push(text(alloc, first)?)?;
    items.push(text(alloc, second)?)?;
    Ok(Tree::List(items))
}

/// The mark of what is writable.
pub(crate) fn writable(writable: bool) -> Option<Tree>
    ensures { option_map view result ≡ writable_value writable }
{
    if writable {
        Some(Tree::Bool(true))
    } else {
        None
    }
}

/// A bound, where there is one.
pub(crate) fn most(most: Option<u32>) -> Option<Tree>
    ensures { option_map view result ≡ option_map most_value most }
{
    match most {
        Some(most) => Some(Tree::Number(of_size(most))),
        None => None,
    }
}

/// The members of a content up to its name.
fn named(alloc: Global, kind: Tree, item: &Content) -> Result<Vec<Member>, OutOfMemory>
    ensures { IfOk result (λ members. map member_view members.items ≡ present (element_parts (Some (view kind)) item.now.common ++ (codes "name", Some (text item.now.name)) ∷ [])) }
{
    let mut members = element(alloc, Some(kind), &item.common)?;
    put_text(alloc, &mut members, "name", item.name.as_str())?;
    Ok(members)
}

/// The members of a telemetry or a property up to its unit.
fn measured(
    alloc: Global,
    kind: &str,
    item: &Content,
    of: &Schema,
    semantic: &Option<Name>,
    unit: &Option<Name>,
) -> Result<Vec<Member>, OutOfMemory>
    ensures { IfOk result (λ members. map member_view members.items ≡ present (element_parts (Some (typed kind.now semantic.now)) item.now.common
        ++ (codes "name", Some (text item.now.name)) ∷ (codes "schema", Some (schema_value (schema_term of.now))) ∷ (codes "unit", option_map text unit.now) ∷ [])) }
{
    let kind = typed(alloc, kind, semantic)?;
    let mut members = named(alloc, kind, item)?;
    let of = schema(alloc, of)?;
    put(alloc, &mut members, "schema", Some(of))?;
    put_optional_name(alloc, &mut members, "unit", unit)?;
    Ok(members)
}

/// A telemetry.
pub(crate) fn telemetry(
    alloc: Global,
    item: &Content,
    kind: &Schema,
    semantic: &Option<Name>,
    unit: &Option<Name>,
) -> Result<Tree, OutOfMemory>
    ensures { IfOk result (λ tree. view tree ≡ content_value (content item.now.name item.now.common (telemetry (schema_term kind.now) semantic.now unit.now))) }
{
    let members = measured(alloc, "Telemetry", item, kind, semantic, unit)?;
    Ok(object(members))
}

/// A property.
pub(crate) fn property(
    alloc: Global,
    item: &Content,
    kind: &Schema,
    semantic: &Option<Name>,
    unit: &Option<Name>,
    marked: bool,
) -> Result<Tree, OutOfMemory>
    ensures { IfOk result (λ tree. view tree ≡ content_value (content item.now.name item.now.common (property (schema_term kind.now) semantic.now unit.now marked))) }
{
    let mut members = measured(alloc, "Property", item, kind, semantic, unit)?;
    put(alloc, &mut members, "writable", writable(marked))?;
    Ok(object(members))
}

/// A payload, where there is one.
fn optional_payload(
    alloc: Global,
    value: &Option<Boxed<Payload>>,
) -> Result<Option<Tree>, OutOfMemory>
    ensures { IfOk result (λ tree. option_map view tree ≡ option_map payload_value (option_map payload_term value.now)) }
{
    match value {
        Some(value) => Ok(Some(payload(alloc, value.get())?)),
        None => Ok(None),
    }
}

/// Adds a member with a payload, where there is one.
fn put_payload(
    alloc: Global,
    members: &mut Vec<Member>,
    key: &str,
    value: &Option<Boxed<Payload>>,
) -> Result<(), OutOfMemory>
    ensures { OnOk result (IsPut (map member_view members.old.items) (map member_view members.new.items) key.now (option_map payload_value (option_map payload_term value.now))) }
{
    let value = optional_payload(alloc, value)?;
    put(alloc, members, key, value)?;
    Ok(())
}

/// A command.
pub(crate) fn command(
    alloc: Global,
    item: &Content,
    request: &Option<Boxed<Payload>>,
    response: &Option<Boxed<Payload>>,
) -> Result<Tree, OutOfMemory>
    ensures { IfOk result (λ tree. view tree ≡ content_value (content item.now.name item.now.common (command (option_map payload_term request.now) (option_map payload_term response.now)))) }
{
    let kind = text(alloc, "Command")?;
    let mut members = named(alloc, kind, item)?;
    put_payload(alloc, &mut members, "request", request)?;
    put_payload(alloc, &mut members, "response", response)?;
    Ok(object(members))
}

/// A component.
pub(crate) fn component(alloc: Global, item: &Content, of: &Dtmi) -> Result<Tree, OutOfMemory>
    ensures { IfOk result (λ tree. view tree ≡ content_value (content item.now.name item.now.common (component of.now))) }
{
    let kind = text(alloc, "Component")?;
    let mut members = named(alloc, kind, item)?;
    put_text(alloc, &mut members, "schema", of.as_str())?;
    Ok(object(members))
}
