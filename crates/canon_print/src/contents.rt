//! Contents of interfaces.

ghost use Rattle.std.specs.Prelude.{◌≡◌, ◌++◌, [], ◌∷◌, ℕ, List, Bool, false, Some, map, codes, string_bytes, IfOk, OnOk};
ghost use Rattle.std.specs.Option.{option_map};
ghost use Rattle.json_tree.specs.Values.{elements_of, text};
ghost use Rattle.json_tree.specs.Printing.{printed, printed_elements};
ghost use Rattle.dtdl_terms.specs.Terms.{content, relationship};
ghost use Rattle.dtdl_terms.specs.TermViews.{content_term, contents_term};
ghost use Rattle.canon_text.specs.Canonical.{content_value, element_parts, most_value};
ghost use Rattle.canon_text.specs.Machinery.Pairs.{content_named};
ghost use Rattle.canon_text.specs.Objects.{list_in_order, unless_empty};
ghost use Rattle.canon_print.specs.Machinery.Bodies.{head_text, IsPrinted, IsBegun};

use crate::elements::push_typed;
use crate::heads::{push_head, push_separator};
use crate::kinds::{push_command, push_component, push_property, push_telemetry};
use crate::marks::{push_most, push_writable};
use crate::sorting::in_order;
use crate::texts::{push_name, push_optional_id};
use dt_base::OutOfMemory;
use dt_base::names::{Dtmi, Name};
use dtdl_terms::{Common, Content, ContentKind};
use std::alloc::Global;

/// Appends a relationship up to its name.
fn push_relationship_head(
    alloc: Global,
    out: &mut String,
    name: &Name,
    common: &Common,
    most: Option<u32>,
) -> Result<(), OutOfMemory>
    ensures { OnOk result (IsBegun (string_bytes out.old) (string_bytes out.new) false (element_parts (Some (text (codes "Relationship"))) common.now
        ++ (codes "maxMultiplicity", option_map most_value most) ∷ (codes "name", Some (text name.now)) ∷ [])) }
{
    let first = push_typed(alloc, out, "\"@type\":\"Relationship\"", common)?;
    let first = push_most(out, first, most)?;
    push_name(out, first, "\"name\":", name)?;
    Ok(())
}

/// Appends a relationship.
#[cycle(contents)]
fn push_relationship(
    alloc: Global,
    out: &mut String,
    name: &Name,
    common: &Common,
    target: &Option<Dtmi>,
    properties: &[Content],
    most: Option<u32>,
    writable: bool,
) -> Result<(), OutOfMemory>
    ensures { OnOk result (string_bytes out.new ≡ string_bytes out.old ++ printed (content_value (content name.now common.now (relationship target.now (contents_term properties.now) most writable)))) }
{
    push_relationship_head(alloc, out, name, common, most)?;
    let first = push_optional_contents(alloc, out, false, "\"properties\":", properties)?;
    let first = push_optional_id(out, first, "\"target\":", target)?;
    push_writable(out, first, writable)?;
    out.push_str("}")?;
    Ok(())
}

/// Appends a content.
#[cycle(contents)]
#[tactic(auto, using(dtdl_terms::proofs::TermViews::terms))]
fn push_content(alloc: Global, out: &mut String, item: &Content) -> Result<(), OutOfMemory>
    ensures { OnOk result (string_bytes out.new ≡ string_bytes out.old ++ printed (content_value (content_term item.now))) }
{
    match &item.kind {
        ContentKind::Telemetry {
            schema,
            semantic,
            unit,
        } => push_telemetry(alloc, out, item, schema, semantic, unit),
        ContentKind::Property {
            schema,
            semantic,
            unit,
            writable,
        } => push_property(alloc, out, item, schema, semantic, unit, *writable),
        ContentKind::Command { request, response } => {
            push_command(alloc, out, item, request, response)
        }
        ContentKind::Relationship {
            target,
            properties,
            max,
            writable,
        } => push_relationship(
            alloc,
            out,
            &item.name,
            &item.common,
            target,
            properties.as_slice(),
            *max,
            *writable,
        ),
        ContentKind::Component { of } => push_component(alloc, out, item, of),
    }
}

/// Appends contents, with commas between them, and the closing bracket.
#[cycle(contents)]
fn push_lent_contents(
    alloc: Global,
    out: &mut String,
    contents: &[&Content],
) -> Result<(), OutOfMemory>
    ensures { OnOk result (string_bytes out.new ≡ string_bytes out.old ++ printed_elements (elements_of (map (λ c. content_value (content_term c.now)) contents.now))) }
{
    for (position, content) in contents.iter().enumerate() {
        push_separator(out, position)?;
        push_content(alloc, out, content)?;
    }
    out.push_str("]")?;
    Ok(())
}

/// Appends contents, in the order of their names.
#[cycle(contents)]
fn push_contents(alloc: Global, out: &mut String, contents: &[Content]) -> Result<(), OutOfMemory>
    ensures { OnOk result (string_bytes out.new ≡ string_bytes out.old ++ printed (list_in_order (map content_named contents.now))) }
{
    let list = in_order(alloc, contents)?;
    out.push_str("[")?;
    push_lent_contents(alloc, out, list.as_slice())?;
    Ok(())
}

/// Appends a member with contents, where there are such, and answers whether still none was printed.
#[cycle(contents)]
pub(crate) fn push_optional_contents(
    alloc: Global,
    out: &mut String,
    first: bool,
    head: &str,
    contents: &[Content],
) -> Result<bool, OutOfMemory>
    ensures { IfOk result (λ after. (key : List ℕ) → head.now ≡ head_text key
        → IsPrinted (string_bytes out.old) (string_bytes out.new) first after key (unless_empty list_in_order (map content_named contents.now))) }
{
    if contents.is_empty() {
        return Ok(first);
    }
    push_head(out, first, head)?;
    push_contents(alloc, out, contents)?;
    Ok(false)
}
