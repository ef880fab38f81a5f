//! Schemas and payloads.

ghost use Rattle.std.specs.Prelude.{◌≡◌, ◌++◌, map, string_bytes, OnOk};
ghost use Rattle.json_tree.specs.Values.{elements_of};
ghost use Rattle.json_tree.specs.Printing.{printed, printed_elements, quoted};
ghost use Rattle.dtdl_terms.specs.Primitives.{primitive_name};
ghost use Rattle.dtdl_terms.specs.Terms.{array_of, enumeration, map_of, object_of};
ghost use Rattle.dtdl_terms.specs.TermViews.{schema_term, payload_term, payloads_term};
ghost use Rattle.canon_text.specs.Canonical.{schema_value, payload_value, schema_pair};
ghost use Rattle.canon_text.specs.Machinery.Pairs.{payload_named};
ghost use Rattle.canon_text.specs.Objects.{list_in_order};

use crate::elements::{push_typed, push_untyped};
use crate::enums::{push_enum_entries, push_value_schema};
use crate::heads::{push_head, push_separator};
use crate::sorting::in_order;
use crate::texts::push_name;
use dt_base::OutOfMemory;
use dtdl_terms::{Common, EnumEntry, Payload, Primitive, Schema};
use json_tree::push_quoted;
use std::alloc::Global;

/// The name of a primitive schema between quotation marks. It is a constant, so that nothing is looked through.
fn quoted_primitive(primitive: Primitive) -> &'static str
    ensures { result.now ≡ quoted (primitive_name primitive) }
{
    match primitive {
        Primitive::Boolean => "\"boolean\"",
        Primitive::Date => "\"date\"",
        Primitive::DateTime => "\"dateTime\"",
        Primitive::Double => "\"double\"",
        Primitive::Duration => "\"duration\"",
        Primitive::Float => "\"float\"",
        Primitive::Integer => "\"integer\"",
        Primitive::Long => "\"long\"",
        Primitive::Str => "\"string\"",
        Primitive::Time => "\"time\"",
    }
}

/// Appends an enumeration.
fn push_enumeration(
    alloc: Global,
    out: &mut String,
    common: &Common,
    of_text: bool,
    values: &[EnumEntry],
) -> Result<(), OutOfMemory>
    ensures { OnOk result (string_bytes out.new ≡ string_bytes out.old ++ printed (schema_value (enumeration common.now of_text values.now))) }
{
    let first = push_typed(alloc, out, "\"@type\":\"Enum\"", common)?;
    push_head(out, first, "\"enumValues\":")?;
    push_enum_entries(alloc, out, values)?;
    push_value_schema(out, false, of_text)?;
    out.push_str("}")?;
    Ok(())
}

/// Appends an array.
#[cycle(schemas)]
fn push_array(
    alloc: Global,
    out: &mut String,
    common: &Common,
    part: &Schema,
) -> Result<(), OutOfMemory>
    ensures { OnOk result (string_bytes out.new ≡ string_bytes out.old ++ printed (schema_value (array_of common.now (schema_term part.now)))) }
{
    let first = push_typed(alloc, out, "\"@type\":\"Array\"", common)?;
    push_head(out, first, "\"elementSchema\":")?;
    push_schema(alloc, out, part)?;
    out.push_str("}")?;
    Ok(())
}

/// Appends a map, by its key and its value.
#[cycle(schemas)]
fn push_map(
    alloc: Global,
    out: &mut String,
    common: &Common,
    key: &Payload,
    value: &Payload,
) -> Result<(), OutOfMemory>
    ensures { OnOk result (string_bytes out.new ≡ string_bytes out.old ++ printed (schema_value (map_of common.now (payload_term key.now) (payload_term value.now)))) }
{
    let first = push_typed(alloc, out, "\"@type\":\"Map\"", common)?;
    push_head(out, first, "\"mapKey\":")?;
    push_payload(alloc, out, key)?;
    push_head(out, false, "\"mapValue\":")?;
    push_payload(alloc, out, value)?;
    out.push_str("}")?;
    Ok(())
}

/// Appends an object.
#[cycle(schemas)]
fn push_object(
    alloc: Global,
    out: &mut String,
    common: &Common,
    fields: &[Payload],
) -> Result<(), OutOfMemory>
    ensures { OnOk result (string_bytes out.new ≡ string_bytes out.old ++ printed (schema_value (object_of common.now (payloads_term fields.now)))) }
{
    let first = push_typed(alloc, out, "\"@type\":\"Object\"", common)?;
    push_head(out, first, "\"fields\":")?;
    push_fields(alloc, out, fields)?;
    out.push_str("}")?;
    Ok(())
}

/// Appends a schema. The call goes down as deep as schemas lie in one another.
#[cycle(schemas)]
#[tactic(auto, using(dtdl_terms::proofs::TermViews::terms))]
pub(crate) fn push_schema(
    alloc: Global,
    out: &mut String,
    value: &Schema,
) -> Result<(), OutOfMemory>
    ensures { OnOk result (string_bytes out.new ≡ string_bytes out.old ++ printed (schema_value (schema_term value.now))) }
{
    match value {
        Schema::Primitive(primitive) => Ok(out.push_str(quoted_primitive(*primitive))?),
        Schema::Named(name) => Ok(push_quoted(out, name.as_str())?),
        Schema::Array { common, element } => push_array(alloc, out, common.get(), element.get()),
        Schema::Enumeration {
            common,
            of_text,
            values,
        } => push_enumeration(alloc, out, common.get(), *of_text, values.as_slice()),
        Schema::Map { common, key, value } => {
            push_map(alloc, out, common.get(), key.get(), value.get())
        }
        Schema::Object { common, fields } => {
            push_object(alloc, out, common.get(), fields.as_slice())
        }
    }
}

/// Appends a payload.
#[cycle(schemas)]
pub(crate) fn push_payload(
    alloc: Global,
    out: &mut String,
    item: &Payload,
) -> Result<(), OutOfMemory>
    ensures { OnOk result (string_bytes out.new ≡ string_bytes out.old ++ printed (payload_value (payload_term item.now))) }
{
    let first = push_untyped(alloc, out, &item.common)?;
    push_name(out, first, "\"name\":", &item.name)?;
    push_head(out, false, "\"schema\":")?;
    push_schema(alloc, out, &item.schema)?;
    out.push_str("}")?;
    Ok(())
}

/// Appends fields, with commas between them, and the closing bracket.
#[cycle(schemas)]
fn push_lent_fields(alloc: Global, out: &mut String, fields: &[&Payload]) -> Result<(), OutOfMemory>
    ensures { OnOk result (string_bytes out.new ≡ string_bytes out.old ++ printed_elements (elements_of (map (λ f. payload_value (payload_term f.now)) fields.now))) }
{
    for (position, field) in fields.iter().enumerate() {
        push_separator(out, position)?;
        push_payload(alloc, out, field)?;
    }
    out.push_str("]")?;
    Ok(())
}

/// Appends fields, in the order of their names.
#[cycle(schemas)]
fn push_fields(alloc: Global, out: &mut String, fields: &[Payload]) -> Result<(), OutOfMemory>
    ensures { OnOk result (string_bytes out.new ≡ string_bytes out.old ++ printed (list_in_order (map payload_named fields.now))) }
{
    let list = in_order(alloc, fields)?;
    out.push_str("[")?;
    push_lent_fields(alloc, out, list.as_slice())?;
    Ok(())
}
