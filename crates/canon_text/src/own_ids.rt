//! What holds of each record in memory: its identifiers are those that their texts spell.

ghost use Rattle.std.specs.Prelude.{IfSome};
ghost use Rattle.std.specs.List.{AllByRecursion};
ghost use Rattle.std.specs.Option.{option_map};
ghost use Rattle.dtdl_terms.specs.TermViews.{schema_term, payload_term, payloads_term, kind_term, content_term, contents_term};
ghost use Rattle.canon_text.specs.Identified.{IsIdentified, CommonIsIdentified, SchemaIsIdentified, PayloadIsIdentified, PayloadsAreIdentified, KindIsIdentified, ContentIsIdentified, ContentsAreIdentified, InterfaceIsIdentified};

use dt_base::names::Dtmi;
use dtdl_terms::{Boxed, Common, Content, ContentKind, EnumEntry, Interface, Payload, Schema};

fn of_id(id: &Dtmi)
    ensures { IsIdentified id.now }
{
    let _text = id.as_str();
}

fn of_optional_id(id: &Option<Dtmi>)
    ensures { IfSome id.now IsIdentified }
{
    if let Some(id) = id {
        of_id(id);
    }
}

fn of_common(common: &Common)
    ensures { CommonIsIdentified common.now }
{
    of_optional_id(&common.id);
}

fn of_entries(entries: &[EnumEntry])
    ensures { AllByRecursion (λ e. CommonIsIdentified e.common) entries.now }
{
    for entry in entries {
        of_common(&entry.common);
    }
}

#[cycle(schemas)]
#[tactic(auto, using(dtdl_terms::proofs::TermViews::terms))]
fn of_schema(schema: &Schema)
    ensures { SchemaIsIdentified (schema_term schema.now) }
{
    match schema {
        Schema::Primitive(_) => {}
        Schema::Named(id) => of_id(id),
        Schema::Array { common, element } => {
            of_common(common.get());
            of_schema(element.get());
        }
        Schema::Enumeration { common, values, .. } => {
            of_common(common.get());
            of_entries(values.as_slice());
        }
        Schema::Map { common, key, value } => {
            of_common(common.get());
            of_payload(key.get());
            of_payload(value.get());
        }
        Schema::Object { common, fields } => {
            of_common(common.get());
            of_fields(fields.as_slice());
        }
    }
}

#[cycle(schemas)]
fn of_payload(payload: &Payload)
    ensures { PayloadIsIdentified (payload_term payload.now) }
{
    of_common(&payload.common);
    of_schema(&payload.schema);
}

#[cycle(schemas)]
fn of_payloads(payloads: &[Payload])
    ensures { AllByRecursion (λ p. PayloadIsIdentified (payload_term p)) payloads.now }
{
    for payload in payloads {
        of_payload(payload);
    }
}

#[cycle(schemas)]
fn of_fields(fields: &[Payload])
    ensures { PayloadsAreIdentified (payloads_term fields.now) }
{
    of_payloads(fields);
}

fn of_optional_payload(payload: &Option<Boxed<Payload>>)
    ensures { IfSome (option_map payload_term payload.now) PayloadIsIdentified }
{
    if let Some(payload) = payload {
        of_payload(payload.get());
    }
}

#[cycle(contents)]
#[tactic(auto, using(dtdl_terms::proofs::TermViews::terms))]
fn of_kind(kind: &ContentKind)
    ensures { KindIsIdentified (kind_term kind.now) }
{
    match kind {
        ContentKind::Telemetry { schema, .. } | ContentKind::Property { schema, .. } => {
            of_schema(schema);
        }
        ContentKind::Command { request, response } => {
            of_optional_payload(request);
            of_optional_payload(response);
        }
        ContentKind::Relationship {
            target,
            properties,
            ..
        } => {
            of_optional_id(target);
            of_properties(properties.as_slice());
        }
        ContentKind::Component { of } => of_id(of),
    }
}

#[cycle(contents)]
fn of_content(content: &Content)
    ensures { ContentIsIdentified (content_term content.now) }
{
    of_common(&content.common);
    of_kind(&content.kind);
}

#[cycle(contents)]
fn of_contents(contents: &[Content])
    ensures { AllByRecursion (λ c. ContentIsIdentified (content_term c)) contents.now }
{
    for content in contents {
        of_content(content);
    }
}

#[cycle(contents)]
fn of_properties(properties: &[Content])
    ensures { ContentsAreIdentified (contents_term properties.now) }
{
    of_contents(properties);
}

fn of_schemas(schemas: &[Schema])
    ensures { AllByRecursion (λ s. SchemaIsIdentified (schema_term s)) schemas.now }
{
    for schema in schemas {
        of_schema(schema);
    }
}

fn of_ids(ids: &[Dtmi])
    ensures { AllByRecursion IsIdentified ids.now }
{
    for id in ids {
        of_id(id);
    }
}

/// The identifiers of an interface in memory are those that their texts spell. The call walks over the interface, as deep
/// as schemas lie in one another, and takes no memory.
pub fn identified(interface: &Interface)
    ensures { InterfaceIsIdentified interface.now }
{
    of_id(&interface.id);
    of_ids(interface.parents.as_slice());
    of_contents(interface.contents.as_slice());
    of_schemas(interface.schemas.as_slice());
}

/// The same of each interface of a list.
pub fn each_identified(interfaces: &[Interface])
    ensures { AllByRecursion InterfaceIsIdentified interfaces.now }
{
    for interface in interfaces {
        identified(interface);
    }
}
