//! The role of each place, from the role of what it stands in and its key.

ghost use Rattle.std.specs.Prelude.{◌≡◌, map, filter_map};
ghost use Rattle.std.specs.Option.{option_map};
ghost use Rattle.json_tree.specs.View.{view, members_view};
ghost use Rattle.local_rules.specs.Roles.{content_schema_role, element_member, element_of, entry_role, enum_value_role, id_role, key_of, key_role, schema_of_values_named, named_by, only, payload_schema_role, position_of, role_of_key, schema_role, type_alone, type_in, type_of, untyped_role, schema_of_values};

use crate::key::Key;
use crate::role::{Element, Localized, PayloadUse, Position, Role, SchemaUse, ValueSchema};
use crate::tables::{element_named, key_of};
use json_tree::{Member, Tree, text_at, text_in, value_at};

/// The type of a position that an entry of `@type` names.
pub fn type_named(position: Position, entry: &Tree) -> Option<Element>
    ensures { result ≡ named_by position (view entry.now) }
{
    match text_in(entry) {
        Some(text) => element_named(position, text),
        None => None,
    }
}

/// The type of a position that exactly one of the entries of `@type` names.
fn only_type(position: Position, entries: &[Tree]) -> Option<Element>
    ensures { result ≡ only (filter_map (named_by position) (map view entries.now)) }
{
    let mut found = None;
    for entry in entries {
        if let Some(element) = type_named(position, entry) {
            if found.is_some() {
                return None;
            }
            found = Some(element);
        }
    }
    found
}

/// The type of a position that a value of `@type` names: it is the type's text, or a list in which exactly one
/// entry is a type of the position.
#[tactic(auto, using(json_tree::proofs::Views::views, json_tree::proofs::Views::lists))]
pub fn type_in(position: Position, tree: &Tree) -> Option<Element>
    ensures { result ≡ type_in position (view tree.now) }
{
    match tree {
        Tree::Text(text) => element_named(position, text.as_str()),
        Tree::List(entries) => only_type(position, entries.as_slice()),
        Tree::Null | Tree::Bool(_) | Tree::Number(_) | Tree::Members(_) => None,
    }
}

/// The type of a position that an object's `@type` names.
pub fn type_of(position: Position, members: &[Member]) -> Option<Element>
    ensures { result ≡ type_of position (members_view members.now) }
{
    match value_at(members, "@type") {
        Some(value) => type_in(position, value),
        None => None,
    }
}

/// What stands in this role as an object with these members. An interface has its role from the document and an
/// entry of `properties` is a property, whatever their `@type` names; an entry of `contents` and a schema are what
/// their `@type` names.
pub fn element_of(role: Role, members: &[Member]) -> Option<Element>
    ensures { result ≡ element_of role (members_view members.now) }
{
    match role {
        Role::Interface => Some(Element::Interface),
        Role::Content => type_of(Position::Content, members),
        Role::RelationshipProperty => Some(Element::Property),
        Role::Payload { .. } | Role::Field => Some(Element::Payload),
        Role::EnumEntry { .. } => Some(Element::EnumEntry),
        Role::NamedSchema | Role::Schema { .. } => type_of(Position::Schema, members),
        _ => None,
    }
}

/// The position of the `@type` of an object in this role.
pub fn position_of(role: Role) -> Position
    ensures { result ≡ position_of role }
{
    match role {
        Role::Interface => Position::Interface,
        Role::Content => Position::Content,
        Role::RelationshipProperty => Position::Property,
        Role::NamedSchema | Role::Schema { .. } => Position::Schema,
        _ => Position::Free,
    }
}

/// What the text of `valueSchema` asks of the values of an enum.
fn schema_of_values_named(text: Option<&str>) -> ValueSchema
    ensures { result ≡ schema_of_values_named (option_map (λ t. t.now) text.entry) }
{
    match text {
        Some("integer") => ValueSchema::Integer,
        Some("string") => ValueSchema::String,
        _ => ValueSchema::Neither,
    }
}

/// What the `valueSchema` of an enum asks of its values.
fn schema_of_values(members: &[Member]) -> ValueSchema
    ensures { result ≡ schema_of_values (members_view members.now) }
{
    schema_of_values_named(text_at(members, "valueSchema"))
}

/// The role of the `enumValue` of an element in this role.
fn enum_value_role(role: Role) -> Role
    ensures { result ≡ enum_value_role role }
{
    match role {
        Role::EnumEntry { value_schema } => Role::EnumValue { value_schema },
        _ => Role::EnumValue {
            value_schema: ValueSchema::Neither,
        },
    }
}

/// The role of the `schema` of an entry of `contents`.
fn content_schema_role(element: Element) -> Role
    ensures { result ≡ content_schema_role element }
{
    match element {
        Element::Component => Role::InterfaceReference,
        Element::Property => Role::Schema {
            part: SchemaUse::Property,
        },
        _ => Role::Schema {
            part: SchemaUse::Outer,
        },
    }
}

/// The role of the `schema` of a payload.
fn payload_schema_role(part: PayloadUse) -> Role
    ensures { result ≡ payload_schema_role part }
{
    let part = match part {
        PayloadUse::Command => SchemaUse::Outer,
        PayloadUse::MapKey => SchemaUse::MapKey,
        PayloadUse::MapValue => SchemaUse::Inner,
    };
    Role::Schema { part }
}

/// The role of the `schema` of an element in this role.
fn schema_role(role: Role, element: Element) -> Role
    ensures { result ≡ schema_role role element }
{
    match role {
        Role::Content => content_schema_role(element),
        Role::RelationshipProperty => Role::Schema {
            part: SchemaUse::Property,
        },
        Role::Payload { part } => payload_schema_role(part),
        _ => Role::Schema {
            part: SchemaUse::Inner,
        },
    }
}

/// The role of the `@id` of an element.
fn id_role(element: Element) -> Role
    ensures { result ≡ id_role element }
{
    match element {
        Element::Interface => Role::InterfaceId,
        _ => Role::ElementId,
    }
}

/// The role of the value under a key of an element in this role.
pub fn key_role(role: Role, element: Element, members: &[Member], key: Key) -> Role
    ensures { result ≡ key_role role element (members_view members.now) key }
{
    match key {
        Key::Context => Role::Context,
        Key::Id => id_role(element),
        Key::Type => Role::Type {
            position: position_of(role),
        },
        Key::Comment => Role::Comment,
        Key::CommandType => Role::CommandType,
        Key::Contents => Role::Contents,
        Key::Description => Role::Localized {
            text: Localized::Description,
        },
        Key::DisplayName => Role::Localized {
            text: Localized::DisplayName,
        },
        Key::ElementSchema => Role::Schema {
            part: SchemaUse::Inner,
        },
        Key::EnumValue => enum_value_role(role),
        Key::EnumValues => Role::EnumValues {
            value_schema: schema_of_values(members),
        },
        Key::Extends => Role::Extends,
        Key::Fields => Role::Fields,
        Key::MapKey => Role::Payload {
            part: PayloadUse::MapKey,
        },
        Key::MapValue => Role::Payload {
            part: PayloadUse::MapValue,
        },
        Key::MaxMultiplicity => Role::MaxMultiplicity,
        Key::MinMultiplicity => Role::MinMultiplicity,
        Key::Name => Role::Name,
        Key::Properties => Role::Properties,
        Key::Request | Key::Response => Role::Payload {
            part: PayloadUse::Command,
        },
        Key::Schema => schema_role(role, element),
        Key::Schemas => Role::Schemas,
        Key::Target => Role::InterfaceReference,
        Key::Unit => Role::Unit,
        Key::ValueSchema => Role::ValueSchema,
        Key::Writable => Role::Writable,
    }
}

/// The role of a member in an object that is no element.
fn untyped_role(role: Role, key: &str) -> Option<Role>
    ensures { result ≡ untyped_role role key.now }
{
    match role {
        Role::Content | Role::NamedSchema | Role::Schema { .. } => type_alone(role, key),
        Role::Localized { text } => Some(Role::LocalizedText { text }),
        _ => None,
    }
}

/// The role of a member where the `@type` of its object names no role: `@type` alone is judged.
fn type_alone(role: Role, key: &str) -> Option<Role>
    ensures { result ≡ type_alone role key.now }
{
    if key == "@type" {
        Some(Role::Type {
            position: position_of(role),
        })
    } else {
        None
    }
}

/// The role of a member of an element.
fn typed_role(role: Role, element: Element, members: &[Member], key: &str) -> Role
    ensures { result ≡ role_of_key role element (members_view members.now) (key_of element key.now) }
{
    match key_of(element, key) {
        Some(key) => key_role(role, element, members, key),
        None => Role::Unknown,
    }
}

/// The role of the member with this key of an object in this role, which is that element. `element` is what
/// `element_of` answers, and so asked once for an object.
pub fn member_role(
    role: Role,
    element: Option<Element>,
    members: &[Member],
    key: &str,
) -> Option<Role>
    ensures { result ≡ element_member role (members_view members.now) element key.now }
{
    match element {
        Some(element) => Some(typed_role(role, element, members, key)),
        None => untyped_role(role, key),
    }
}

/// The role of each entry of a list in this role.
pub fn entry_role(list: Role) -> Option<Role>
    ensures { result ≡ entry_role list }
{
    match list {
        Role::Contents => Some(Role::Content),
        Role::Schemas => Some(Role::NamedSchema),
        Role::Properties => Some(Role::RelationshipProperty),
        Role::Fields => Some(Role::Field),
        Role::EnumValues { value_schema } => Some(Role::EnumEntry { value_schema }),
        Role::Context | Role::Type { .. } => Some(Role::ListedText),
        Role::Extends => Some(Role::Parent),
        _ => None,
    }
}
