//! Contents of interfaces, as trees.

ghost use Rattle.std.specs.Prelude.{◌≡◌, ℕ, List, [], ◌∷◌, ◌++◌, map, Option, Some, codes, IfOk, OnOk};
ghost use Rattle.std.specs.Option.{option_map};
ghost use Rattle.json_tree.specs.Values.{Json, text};
ghost use Rattle.json_tree.specs.View.{view, member_view};
ghost use Rattle.dtdl_terms.specs.Terms.{content, relationship};
ghost use Rattle.dtdl_terms.specs.TermViews.{content_term, contents_term};
ghost use Rattle.canon_text.specs.Canonical.{content_value, element_parts, id_value, most_value, writable_value};
ghost use Rattle.canon_text.specs.Objects.{present, object_of_parts, list_in_order, unless_empty};
ghost use Rattle.canon_text.specs.Machinery.Pairs.{content_named, IsPut};

use crate::kinds::{command, component, most, property, telemetry, writable};
use crate::parts::{object, push_named, put, put_optional_id, put_text, typed_element};
use crate::sorting::optional_list;
use dt_base::OutOfMemory;
use dt_base::names::Dtmi;
use dtdl_terms::{Common, Content, ContentKind};
use json_tree::{Member, Tree};
use std::alloc::Global;

/// The members of a relationship up to its name.
fn relationship_head(
    alloc: Global,
    name: &str,
    common: &Common,
    bound: Option<u32>,
) -> Result<Vec<Member>, OutOfMemory>
    ensures { IfOk result (λ members. map member_view members.items ≡ present (element_parts (Some (text (codes "Relationship"))) common.now
        ++ (codes "maxMultiplicity", option_map most_value bound) ∷ (codes "name", Some (text name.now)) ∷ [])) }
{
    let mut members = typed_element(alloc, "Relationship", common)?;
    put(alloc, &mut members, "maxMultiplicity", most(bound))?;
    put_text(alloc, &mut members, "name", name)?;
    Ok(members)
}

/// A relationship, by its members up to its name and the list of its properties.
fn relationship_of(
    alloc: Global,
    head: Vec<Member>,
    properties: Option<Tree>,
    target: &Option<Dtmi>,
    marked: bool,
) -> Result<Tree, OutOfMemory>
    ensures { IfOk result (λ tree. (parts : List (List ℕ × Option Json)) (of : Option Json) → option_map view properties ≡ of → map member_view head.items ≡ present parts
        → view tree ≡ object_of_parts (((parts ++ (codes "properties", of) ∷ []) ++ (codes "target", option_map id_value target.now) ∷ []) ++ (codes "writable", writable_value marked) ∷ [])) }
{
    let mut members = head;
    put(alloc, &mut members, "properties", properties)?;
    put_optional_id(alloc, &mut members, "target", target)?;
    put(alloc, &mut members, "writable", writable(marked))?;
    Ok(object(members))
}

/// A relationship.
#[cycle(contents)]
fn relationship(
    alloc: Global,
    name: &str,
    common: &Common,
    target: &Option<Dtmi>,
    properties: &[Content],
    bound: Option<u32>,
    marked: bool,
) -> Result<Tree, OutOfMemory>
    ensures { IfOk result (λ tree. view tree ≡ content_value (content name.now common.now (relationship target.now (contents_term properties.now) bound marked))) }
{
    let head = relationship_head(alloc, name, common, bound)?;
    let properties = named_contents(alloc, properties)?;
    let properties = optional_list(alloc, properties)?;
    let tree = relationship_of(alloc, head, properties, target, marked)?;
    Ok(tree)
}

/// A content.
#[cycle(contents)]
#[tactic(auto, using(dtdl_terms::proofs::TermViews::terms))]
fn content(alloc: Global, item: &Content) -> Result<Tree, OutOfMemory>
    ensures { IfOk result (λ tree. view tree ≡ content_value (content_term item.now)) }
{
    match &item.kind {
        ContentKind::Telemetry {
            schema,
            semantic,
            unit,
        } => telemetry(alloc, item, schema, semantic, unit),
        ContentKind::Property {
            schema,
            semantic,
            unit,
            writable,
        } => property(alloc, item, schema, semantic, unit, *writable),
        ContentKind::Command { request, response } => command(alloc, item, request, response),
        ContentKind::Relationship {
            target,
            properties,
            max,
            writable,
        } => relationship(
            alloc,
            item.name.as_str(),
            &item.common,
            target,
            properties.as_slice(),
            *max,
            *writable,
        ),
        ContentKind::Component { of } => component(alloc, item, of),
    }
}

/// Contents by their names.
#[cycle(contents)]
fn named_contents(alloc: Global, items: &[Content]) -> Result<Vec<Member>, OutOfMemory>
    ensures { IfOk result (λ members. map member_view members.items ≡ map content_named items.now) }
{
    let mut members = Vec::with_capacity(alloc, items.len())?;
    for item in items {
        let value = content(alloc, item)?;
        push_named(alloc, &mut members, item.name.as_str(), value)?;
    }
    Ok(members)
}

/// Adds a member with contents, where there are such.
pub(crate) fn put_contents(
    alloc: Global,
    members: &mut Vec<Member>,
    key: &str,
    items: &[Content],
) -> Result<(), OutOfMemory>
    ensures { OnOk result (IsPut (map member_view members.old.items) (map member_view members.new.items) key.now (unless_empty list_in_order (map content_named items.now))) }
{
    let values = named_contents(alloc, items)?;
    let list = optional_list(alloc, values)?;
    put(alloc, members, key, list)?;
    Ok(())
}
