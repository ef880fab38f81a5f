//! Schemas, and payloads, which have schemas.

ghost use Rattle.std.specs.Prelude.{◌≡◌, Some, IfOk};
ghost use Rattle.json_tree.specs.Values.{text, object};
ghost use Rattle.json_tree.specs.View.{view, members_view, elements_view};
ghost use Rattle.dtdl_terms.specs.TermViews.{schema_term, payload_term, payloads_term};
ghost use Rattle.local_rules.specs.Levels.{IsPrimitiveName};
ghost use Rattle.local_rules.specs.Roles.{type_of};
ghost use Rattle.local_rules.specs.declared.role.Element.TheVariants as element;
ghost use Rattle.local_rules.specs.declared.role.Position.TheVariants as position;
ghost use Rattle.local_rules.specs.Declarations.{IsSchema, IsPayload, ArePayloads, HasSchema, HasPayload};
ghost use Rattle.model_read.specs.Machinery.Shapes.{ArrayShape, CanBeId, EachIs, EnumerationShape, HasMember, IsValidPayload, IsValidSchema, MapShape, ObjectShape, SchemaShape};

use crate::common::{boxed_common_of, common_of};
use crate::enums::{enum_entries_of, is_of_text};
use crate::parts::{entries_of, members_of, wanted};
use crate::texts::{id_in, name_at};
use dt_base::{List, OutOfMemory};
use dtdl_terms::{Boxed, Payload, Schema, primitive_named};
use json_tree::{Member, Tree};
use local_rules::{Element, Position, type_of};
use std::alloc::Global;

/// The schema of this name: a primitive, or one that is declared elsewhere.
#[tactic(auto, using(dtdl_terms::proofs::TermViews::terms))]
fn schema_named(alloc: Global, name: &str) -> Result<Schema, OutOfMemory>
    requires { (IsPrimitiveName name.now → ⊥) → CanBeId (text name.now) }
    ensures { IfOk result (λ s. IsSchema (schema_term s) (text name.now)) }
{
    match primitive_named(name) {
        Some(primitive) => Ok(Schema::Primitive(primitive)),
        None => Ok(Schema::Named(id_in(alloc, name)?)),
    }
}

/// The enumeration that members declare.
fn enumeration_in(alloc: Global, members: &[Member]) -> Result<Schema, OutOfMemory>
    requires typed { type_of position.Schema (members_view members.now) ≡ Some element.Enumeration }
    requires shaped { EnumerationShape (members_view members.now) }
    ensures { IfOk result (λ s. IsSchema (schema_term s) (object (members_view members.now))) }
{
    let common = boxed_common_of(alloc, members)?;
    let of_text = is_of_text(members);
    let values = wanted(members, "enumValues");
    let Ok(values) = enum_entries_of(alloc, entries_of(values)) else {
        drop(common);
        return Err(OutOfMemory);
    };
    Ok(Schema::Enumeration {
        common,
        of_text,
        values,
    })
}

/// The schema that a value is.
#[cycle(schemas)]
pub fn schema_of(alloc: Global, tree: &Tree) -> Result<Schema, OutOfMemory>
    requires { IsValidSchema (view tree.now) }
    ensures { IfOk result (λ s. IsSchema (schema_term s) (view tree.now)) }
{
    match tree {
        Tree::Text(name) => schema_named(alloc, name.as_str()),
        Tree::Members(members) => schema_in(alloc, members.as_slice()),
        Tree::Null | Tree::Bool(_) | Tree::Number(_) | Tree::List(_) => unreachable!(),
    }
}

/// The schema that members declare.
#[cycle(schemas)]
fn schema_in(alloc: Global, members: &[Member]) -> Result<Schema, OutOfMemory>
    requires { SchemaShape (type_of position.Schema (members_view members.now)) (members_view members.now) }
    ensures { IfOk result (λ s. IsSchema (schema_term s) (object (members_view members.now))) }
{
    match type_of(Position::Schema, members) {
        Some(Element::Array) => array_in(alloc, members),
        Some(Element::Enumeration) => enumeration_in(alloc, members),
        Some(Element::Map) => map_in(alloc, members),
        Some(Element::Object) => object_in(alloc, members),
        _ => unreachable!(),
    }
}

#[cycle(schemas)]
fn array_in(alloc: Global, members: &[Member]) -> Result<Schema, OutOfMemory>
    requires typed { type_of position.Schema (members_view members.now) ≡ Some element.Array }
    requires shaped { ArrayShape (members_view members.now) }
    ensures { IfOk result (λ s. IsSchema (schema_term s) (object (members_view members.now))) }
{
    let common = boxed_common_of(alloc, members)?;
    let Ok(element) = schema_at(alloc, members, "elementSchema") else {
        drop(common);
        return Err(OutOfMemory);
    };
    let Ok(element) = Boxed::new(alloc, element) else {
        drop(common);
        return Err(OutOfMemory);
    };
    Ok(Schema::Array { common, element })
}

#[cycle(schemas)]
fn map_in(alloc: Global, members: &[Member]) -> Result<Schema, OutOfMemory>
    requires typed { type_of position.Schema (members_view members.now) ≡ Some element.Map }
    requires shaped { MapShape (members_view members.now) }
    ensures { IfOk result (λ s. IsSchema (schema_term s) (object (members_view members.now))) }
{
    let common = boxed_common_of(alloc, members)?;
    let Ok(key) = payload_at(alloc, members, "mapKey") else {
        drop(common);
        return Err(OutOfMemory);
    };
    let Ok(value) = payload_at(alloc, members, "mapValue") else {
        drop((common, key));
        return Err(OutOfMemory);
    };
    Ok(Schema::Map { common, key, value })
}

#[cycle(schemas)]
fn object_in(alloc: Global, members: &[Member]) -> Result<Schema, OutOfMemory>
    requires typed { type_of position.Schema (members_view members.now) ≡ Some element.Object }
    requires shaped { ObjectShape (members_view members.now) }
    ensures { IfOk result (λ s. IsSchema (schema_term s) (object (members_view members.now))) }
{
    let common = boxed_common_of(alloc, members)?;
    let fields = wanted(members, "fields");
    let Ok(fields) = payloads_of(alloc, entries_of(fields)) else {
        drop(common);
        return Err(OutOfMemory);
    };
    Ok(Schema::Object { common, fields })
}

/// The schema under a key.
#[cycle(schemas)]
pub fn schema_at(alloc: Global, members: &[Member], key: &str) -> Result<Schema, OutOfMemory>
    requires { HasMember IsValidSchema key.now (members_view members.now) }
    ensures { IfOk result (λ s. HasSchema key.now (members_view members.now) (schema_term s)) }
{
    let value = wanted(members, key);
    schema_of(alloc, value)
}

/// The payload under a key.
#[cycle(schemas)]
pub fn payload_at(
    alloc: Global,
    members: &[Member],
    key: &str,
) -> Result<Boxed<Payload>, OutOfMemory>
    requires { HasMember IsValidPayload key.now (members_view members.now) }
    ensures { IfOk result (λ p. HasPayload key.now (members_view members.now) (payload_term p)) }
{
    let value = wanted(members, key);
    let payload = payload_of(alloc, value)?;
    Ok(Boxed::new(alloc, payload)?)
}

/// The payload that a value is.
#[cycle(schemas)]
fn payload_of(alloc: Global, tree: &Tree) -> Result<Payload, OutOfMemory>
    requires { IsValidPayload (view tree.now) }
    ensures { IfOk result (λ p. IsPayload (payload_term p) (view tree.now)) }
{
    let members = members_of(tree);
    let name = name_at(alloc, members, "name")?;
    let Ok(common) = common_of(alloc, members) else {
        drop(name);
        return Err(OutOfMemory);
    };
    let Ok(schema) = schema_at(alloc, members, "schema") else {
        drop((name, common));
        return Err(OutOfMemory);
    };
    Ok(Payload {
        name,
        common,
        schema,
    })
}

/// The fields that the entries of a list are.
#[cycle(schemas)]
fn payloads_of(alloc: Global, trees: &[Tree]) -> Result<List<Payload>, OutOfMemory>
    requires { EachIs IsValidPayload (elements_view trees.now) }
    ensures { IfOk result (λ ps. ArePayloads (payloads_term ps) (elements_view trees.now)) }
{
    let mut payloads = Vec::with_capacity(alloc, trees.len())?;
    for tree in trees {
        payloads.push(payload_of(alloc, tree)?)?;
    }
    Ok(List::from_vec(payloads))
}
