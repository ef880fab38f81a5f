//! The tables of the kinds of objects: their keys, and the types that `@type` may name (DTDL v2, the tables of
//! members).

ghost use Rattle.std.specs.Prelude.{◌≡◌, List, ◌++◌, find, bytes_eq};
ghost use Rattle.std.specs.Bool.{then_some};
ghost use Rattle.local_rules.specs.Machinery.Keys.{all_keys, long_keys, middle_keys, short_keys};
ghost use Rattle.local_rules.specs.Tables.{key_text, type_text};
ghost use Rattle.local_rules.specs.Roles.{element_named, key_of};

use crate::key::Key;
use crate::role::{Element, Position};
use json_tree::is_same;

/// The key of at most 7 bytes that has this text.
fn short_key_named(text: &str) -> Option<Key>
    ensures { result ≡ find (λ k. bytes_eq (key_text k) text.now) short_keys }
{
    if is_same("@type", text) {
        return Some(Key::Type);
    }
    if is_same("name", text) {
        return Some(Key::Name);
    }
    if is_same("schema", text) {
        return Some(Key::Schema);
    }
    if is_same("@id", text) {
        return Some(Key::Id);
    }
    if is_same("unit", text) {
        return Some(Key::Unit);
    }
    if is_same("target", text) {
        return Some(Key::Target);
    }
    if is_same("fields", text) {
        return Some(Key::Fields);
    }
    if is_same("mapKey", text) {
        return Some(Key::MapKey);
    }
    if is_same("comment", text) {
        return Some(Key::Comment);
    }
    if is_same("extends", text) {
        return Some(Key::Extends);
    }
    if is_same("request", text) {
        return Some(Key::Request);
    }
    is_same("schemas", text).then_some(Key::Schemas)
}

/// The key of 8 to 10 bytes that has this text.
fn middle_key_named(text: &str) -> Option<Key>
    ensures { result ≡ find (λ k. bytes_eq (key_text k) text.now) middle_keys }
{
    if is_same("contents", text) {
        return Some(Key::Contents);
    }
    if is_same("writable", text) {
        return Some(Key::Writable);
    }
    if is_same("@context", text) {
        return Some(Key::Context);
    }
    if is_same("mapValue", text) {
        return Some(Key::MapValue);
    }
    if is_same("response", text) {
        return Some(Key::Response);
    }
    if is_same("enumValue", text) {
        return Some(Key::EnumValue);
    }
    if is_same("enumValues", text) {
        return Some(Key::EnumValues);
    }
    is_same("properties", text).then_some(Key::Properties)
}

/// The key of 11 and more bytes that has this text.
fn long_key_named(text: &str) -> Option<Key>
    ensures { result ≡ find (λ k. bytes_eq (key_text k) text.now) long_keys }
{
    if is_same("description", text) {
        return Some(Key::Description);
    }
    if is_same("displayName", text) {
        return Some(Key::DisplayName);
    }
    if is_same("commandType", text) {
        return Some(Key::CommandType);
    }
    if is_same("valueSchema", text) {
        return Some(Key::ValueSchema);
    }
    if is_same("elementSchema", text) {
        return Some(Key::ElementSchema);
    }
    if is_same("maxMultiplicity", text) {
        return Some(Key::MaxMultiplicity);
    }
    is_same("minMultiplicity", text).then_some(Key::MinMultiplicity)
}

/// The key of 8 and more bytes that has this text.
fn longer_key_named(text: &str) -> Option<Key>
    ensures { result ≡ find (λ k. bytes_eq (key_text k) text.now) (middle_keys ++ long_keys) }
{
    match middle_key_named(text) {
        Some(key) => Some(key),
        None => long_key_named(text),
    }
}

/// The key that has this text.
fn key_named(text: &str) -> Option<Key>
    ensures { result ≡ find (λ k. bytes_eq (key_text k) text.now) all_keys }
{
    match short_key_named(text) {
        Some(key) => Some(key),
        None => longer_key_named(text),
    }
}

/// Whether an element may have this key.
fn has_key(element: Element, key: Key) -> bool
    ensures { then_some result key ≡ key_of element (key_text key) }
{
    match key {
        Key::Id | Key::Type | Key::Comment | Key::Description | Key::DisplayName => true,
        Key::Context | Key::Contents | Key::Extends | Key::Schemas => {
            matches!(element, Element::Interface)
        }
        Key::Name => !matches!(
            element,
            Element::Interface
                | Element::Array
                | Element::Enumeration
                | Element::Map
                | Element::Object
        ),
        Key::Schema => matches!(
            element,
            Element::Telemetry | Element::Property | Element::Component | Element::Payload
        ),
        Key::Unit => matches!(element, Element::Telemetry | Element::Property),
        Key::Writable => matches!(element, Element::Property | Element::Relationship),
        Key::CommandType | Key::Request | Key::Response => matches!(element, Element::Command),
        Key::MaxMultiplicity | Key::MinMultiplicity | Key::Properties | Key::Target => {
            matches!(element, Element::Relationship)
        }
        Key::ElementSchema => matches!(element, Element::Array),
        Key::EnumValues | Key::ValueSchema => matches!(element, Element::Enumeration),
        Key::EnumValue => matches!(element, Element::EnumEntry),
        Key::MapKey | Key::MapValue => matches!(element, Element::Map),
        Key::Fields => matches!(element, Element::Object),
    }
}

/// The key of an element that has this text. The text is compared with keys of its length alone, whatever the element.
pub fn key_of(element: Element, text: &str) -> Option<Key>
    ensures { result ≡ key_of element text.now }
{
    match key_named(text) {
        Some(key) => has_key(element, key).then_some(key),
        None => None,
    }
}

impl Element {
    /// The text by which `@type` names it: empty for payloads and enum entries, which have none.
    pub fn text(self) -> &'static str
        ensures { result.now ≡ type_text self }
    {
        match self {
            Element::Interface => "Interface",
            Element::Telemetry => "Telemetry",
            Element::Property => "Property",
            Element::Command => "Command",
            Element::Relationship => "Relationship",
            Element::Component => "Component",
            Element::Payload => "",
            Element::Array => "Array",
            Element::Enumeration => "Enum",
            Element::EnumEntry => "",
            Element::Map => "Map",
            Element::Object => "Object",
        }
    }
}

/// The type of an entry of `contents` that this text names.
fn content_named(text: &str) -> Option<Element>
    ensures { result ≡ element_named Position.Content text.now }
{
    if is_same("Telemetry", text) {
        return Some(Element::Telemetry);
    }
    if is_same("Property", text) {
        return Some(Element::Property);
    }
    if is_same("Command", text) {
        return Some(Element::Command);
    }
    if is_same("Relationship", text) {
        return Some(Element::Relationship);
    }
    is_same("Component", text).then_some(Element::Component)
}

/// The type of a schema that this text names.
fn schema_named(text: &str) -> Option<Element>
    ensures { result ≡ element_named Position.Schema text.now }
{
    if is_same("Array", text) {
        return Some(Element::Array);
    }
    if is_same("Enum", text) {
        return Some(Element::Enumeration);
    }
    if is_same("Map", text) {
        return Some(Element::Map);
    }
    is_same("Object", text).then_some(Element::Object)
}

/// The type of a position that this text names.
pub fn element_named(position: Position, text: &str) -> Option<Element>
    ensures { result ≡ element_named position text.now }
{
    match position {
        Position::Interface => is_same("Interface", text).then_some(Element::Interface),
        Position::Content => content_named(text),
        Position::Property => is_same("Property", text).then_some(Element::Property),
        Position::Schema => schema_named(text),
        Position::Free => None,
    }
}
