//! Schemas and payloads, as trees.

ghost use Rattle.std.specs.Prelude.{◌≡◌, [], ◌∷◌, map, Some, codes, IfOk};
ghost use Rattle.json_tree.specs.View.{view, member_view};
ghost use Rattle.dtdl_terms.specs.Terms.{array_of, enumeration, object_of};
ghost use Rattle.dtdl_terms.specs.Distinct.{schema_id};
ghost use Rattle.dtdl_terms.specs.TermViews.{schema_term, payload_term, payloads_term};
ghost use Rattle.canon_text.specs.Canonical.{schema_value, schema_object, payload_value, schema_pair, id_text};
ghost use Rattle.canon_text.specs.Machinery.Pairs.{payload_named};

use crate::common::{id, text};
use crate::enums::{enum_entries, value_schema};
use crate::parts::{element, object, push_named, put, put_text, typed_element};
use crate::sorting::list_in_order;
use dt_base::OutOfMemory;
use dtdl_terms::{Boxed, Common, EnumEntry, Payload, Schema};
use json_tree::{Member, Tree};
use std::alloc::Global;

/// An enumeration.
fn enumeration(
    alloc: Global,
    common: &Common,
    of_text: bool,
    values: &[EnumEntry],
) -> Result<Tree, OutOfMemory>
    ensures { IfOk result (λ tree. view tree ≡ schema_value (enumeration common.now of_text values.now)) }
{
    let mut members = typed_element(alloc, "Enum", common)?;
    let values = enum_entries(alloc, values)?;
    put(alloc, &mut members, "enumValues", Some(values))?;
    let kind = value_schema(alloc, of_text)?;
    put(alloc, &mut members, "valueSchema", Some(kind))?;
    Ok(object(members))
}

/// An array.
#[cycle(schemas)]
fn array(alloc: Global, common: &Common, part: &Schema) -> Result<Tree, OutOfMemory>
    ensures { IfOk result (λ tree. view tree ≡ schema_value (array_of common.now (schema_term part.now))) }
{
    let mut members = typed_element(alloc, "Array", common)?;
    let part = schema(alloc, part)?;
    put(alloc, &mut members, "elementSchema", Some(part))?;
    Ok(object(members))
}

/// A map, by its key and its value.
fn map_schema(alloc: Global, common: &Common, key: Tree, value: Tree) -> Result<Tree, OutOfMemory>
    ensures { IfOk result (λ tree. view tree ≡ schema_object (codes "Map") common.now ((codes "mapKey", Some (view key)) ∷ (codes "mapValue", Some (view value)) ∷ [])) }
{
    let mut members = typed_element(alloc, "Map", common)?;
    put(alloc, &mut members, "mapKey", Some(key))?;
    put(alloc, &mut members, "mapValue", Some(value))?;
    Ok(object(members))
}

/// An object.
#[cycle(schemas)]
fn object_schema(alloc: Global, common: &Common, fields: &[Payload]) -> Result<Tree, OutOfMemory>
    ensures { IfOk result (λ tree. view tree ≡ schema_value (object_of common.now (payloads_term fields.now))) }
{
    let mut members = typed_element(alloc, "Object", common)?;
    let fields = payloads(alloc, fields)?;
    let fields = list_in_order(alloc, fields)?;
    put(alloc, &mut members, "fields", Some(fields))?;
    Ok(object(members))
}

/// A schema. The call goes down as deep as schemas lie in one another.
#[cycle(schemas)]
#[tactic(auto, using(dtdl_terms::proofs::TermViews::terms))]
pub(crate) fn schema(alloc: Global, value: &Schema) -> Result<Tree, OutOfMemory>
    ensures { IfOk result (λ tree. view tree ≡ schema_value (schema_term value.now)) }
{
    match value {
        Schema::Primitive(primitive) => text(alloc, primitive.text()),
        Schema::Named(name) => id(alloc, name),
        Schema::Array { common, element } => array(alloc, common.get(), element.get()),
        Schema::Enumeration {
            common,
            of_text,
            values,
        } => enumeration(alloc, common.get(), *of_text, values.as_slice()),
        Schema::Map { common, key, value } => {
            let key = boxed_payload(alloc, key)?;
            let value = boxed_payload(alloc, value)?;
            map_schema(alloc, common.get(), key, value)
        }
        Schema::Object { common, fields } => {
            object_schema(alloc, common.get(), fields.as_slice())
        }
    }
}

/// A payload.
#[cycle(schemas)]
pub(crate) fn payload(alloc: Global, item: &Payload) -> Result<Tree, OutOfMemory>
    ensures { IfOk result (λ tree. view tree ≡ payload_value (payload_term item.now)) }
{
    let mut members = element(alloc, None, &item.common)?;
    put_text(alloc, &mut members, "name", item.name.as_str())?;
    let kind = schema(alloc, &item.schema)?;
    put(alloc, &mut members, "schema", Some(kind))?;
    Ok(object(members))
}

/// A payload in a box.
#[cycle(schemas)]
fn boxed_payload(alloc: Global, item: &Boxed<Payload>) -> Result<Tree, OutOfMemory>
    ensures { IfOk result (λ tree. view tree ≡ payload_value (payload_term item.now)) }
{
    payload(alloc, item.get())
}

/// Fields by their names.
#[cycle(schemas)]
fn payloads(alloc: Global, items: &[Payload]) -> Result<Vec<Member>, OutOfMemory>
    ensures { IfOk result (λ members. map member_view members.items ≡ map payload_named items.now) }
{
    let mut members = Vec::with_capacity(alloc, items.len())?;
    for item in items {
        let value = payload(alloc, item)?;
        push_named(alloc, &mut members, item.name.as_str(), value)?;
    }
    Ok(members)
}

/// The identifier of a complex schema.
fn own_id(schema: &Schema) -> &str
    ensures { result.now ≡ id_text (schema_id (schema_term schema.now)) }
{
    match schema {
        Schema::Primitive(_) | Schema::Named(_) => "",
        Schema::Array { common, .. }
        | Schema::Enumeration { common, .. }
        | Schema::Map { common, .. }
        | Schema::Object { common, .. } => common_id(common.get()),
    }
}

/// The identifier of an element, or nothing.
fn common_id(common: &Common) -> &str
    ensures { result.now ≡ id_text common.now.id }
{
    match &common.id {
        Some(id) => id.as_str(),
        None => "",
    }
}

/// Named schemas by their identifiers.
pub(crate) fn named_schemas(alloc: Global, items: &[Schema]) -> Result<Vec<Member>, OutOfMemory>
    ensures { IfOk result (λ members. map member_view members.items ≡ map (λ s. schema_pair (schema_term s)) items.now) }
{
    let mut members = Vec::with_capacity(alloc, items.len())?;
    for item in items {
        let value = schema(alloc, item)?;
        push_named(alloc, &mut members, own_id(item), value)?;
    }
    Ok(members)
}
