//! The rules on the kinds of values and on the keys of objects.

ghost use Rattle.std.specs.Prelude.{◌≡◌, ◌↔◌, [], ◌∷◌, IsTrue, None, Some};
ghost use Rattle.json_tree.specs.Values.{text};
ghost use Rattle.json_tree.specs.View.{view, members_view};
ghost use Rattle.json_tree.specs.Members.{value_at};
ghost use Rattle.local_rules.specs.Tables.{key_text, required};
ghost use Rattle.local_rules.specs.Kinds.{is_of_kind, kind_of, needed_keys, LacksKeyOf, MissingKey};

use crate::key::Key;
use crate::role::{Element, Kind, Role};
use crate::roles::element_of;
use json_tree::{Member, Tree, value_at};

/// The kind of value that a role wants.
pub fn kind_of(role: Role) -> Kind
    ensures { result ≡ kind_of role }
{
    match role {
        Role::Interface
        | Role::Content
        | Role::RelationshipProperty
        | Role::Payload { .. }
        | Role::Field
        | Role::EnumEntry { .. }
        | Role::NamedSchema => Kind::Object,
        Role::Schema { .. } | Role::Localized { .. } => Kind::TextOrObject,
        Role::Contents
        | Role::Schemas
        | Role::Properties
        | Role::Fields
        | Role::EnumValues { .. } => Kind::List,
        Role::Context | Role::Type { .. } | Role::Extends => Kind::TextOrList,
        Role::LocalizedText { .. }
        | Role::ListedText
        | Role::Parent
        | Role::InterfaceId
        | Role::ElementId
        | Role::InterfaceReference
        | Role::Comment
        | Role::Name
        | Role::CommandType
        | Role::Unit
        | Role::ValueSchema => Kind::Text,
        Role::Writable => Kind::Truth,
        Role::MinMultiplicity | Role::MaxMultiplicity => Kind::Number,
        Role::EnumValue { .. } => Kind::NumberOrText,
        Role::Unknown => Kind::Any,
    }
}

/// Whether a value is of a kind.
#[tactic(auto, using(json_tree::proofs::Views::views))]
pub fn is_of_kind(kind: Kind, tree: &Tree) -> bool
    ensures { result ≡ is_of_kind kind (view tree.now) }
{
    match tree {
        Tree::Null => matches!(kind, Kind::Any),
        Tree::Bool(_) => matches!(kind, Kind::Truth | Kind::Any),
        Tree::Number(_) => matches!(kind, Kind::Number | Kind::NumberOrText | Kind::Any),
        Tree::Text(_) => admits_text(kind),
        Tree::List(_) => matches!(kind, Kind::List | Kind::TextOrList | Kind::Any),
        Tree::Members(_) => matches!(kind, Kind::Object | Kind::TextOrObject | Kind::Any),
    }
}

/// Whether texts are of a kind.
fn admits_text(kind: Kind) -> bool
    ensures { result ≡ is_of_kind kind (text []) }
{
    match kind {
        Kind::Text | Kind::TextOrList | Kind::TextOrObject | Kind::NumberOrText | Kind::Any => true,
        Kind::Object | Kind::List | Kind::Truth | Kind::Number => false,
    }
}

/// Whether a value is an object that lacks a required key.
#[tactic(auto, using(json_tree::proofs::Views::views))]
pub fn lacks_key(role: Role, tree: &Tree) -> bool
    ensures { IsTrue result ↔ MissingKey role (view tree.now) }
{
    match tree {
        Tree::Members(members) => {
            let members = members.as_slice();
            lacks_needed(role, element_of(role, members), members)
        }
        Tree::Null | Tree::Bool(_) | Tree::Number(_) | Tree::Text(_) | Tree::List(_) => false,
    }
}

/// Whether the members of an object in this role, which is that element, lack a required key.
fn lacks_needed(role: Role, element: Option<Element>, members: &[Member]) -> bool
    ensures { IsTrue result ↔ LacksKeyOf (needed_keys role element) (members_view members.now) }
{
    match element {
        Some(element) => lacks_required(role, element, members),
        None => lacks_type(role, members),
    }
}

/// Whether the members of this element lack a required key.
fn lacks_required(role: Role, element: Element, members: &[Member]) -> bool
    ensures { IsTrue result ↔ LacksKeyOf (needed_keys role (Some element)) (members_view members.now) }
{
    match role {
        Role::NamedSchema => lacks_id_or_required(element, members),
        _ => lacks_key_of(element, members),
    }
}

/// Whether the members of this element, which is an entry of `schemas`, lack a required key.
fn lacks_id_or_required(element: Element, members: &[Member]) -> bool
    ensures { IsTrue result ↔ LacksKeyOf (Key.Id ∷ required element) (members_view members.now) }
{
    if lacks(Key::Id, members) {
        return true;
    }
    lacks_key_of(element, members)
}

/// Whether the members lack a key that this element must have, whatever its role. Each key is a constant where it is
/// sought, so that no table of keys is walked.
fn lacks_key_of(element: Element, members: &[Member]) -> bool
    ensures { IsTrue result ↔ LacksKeyOf (required element) (members_view members.now) }
{
    match element {
        Element::Interface => lacks_three(Key::Context, Key::Id, Key::Type, members),
        Element::Telemetry | Element::Property | Element::Component => {
            lacks_three(Key::Type, Key::Name, Key::Schema, members)
        }
        Element::Command | Element::Relationship => lacks_two(Key::Type, Key::Name, members),
        Element::Payload => lacks_two(Key::Name, Key::Schema, members),
        Element::Array => lacks_two(Key::Type, Key::ElementSchema, members),
        Element::Enumeration => {
            lacks_three(Key::Type, Key::EnumValues, Key::ValueSchema, members)
        }
        Element::EnumEntry => lacks_two(Key::EnumValue, Key::Name, members),
        Element::Map => lacks_three(Key::Type, Key::MapKey, Key::MapValue, members),
        Element::Object => lacks_two(Key::Type, Key::Fields, members),
    }
}

/// Whether the members lack the `@type` that decides what an object in this role is.
fn lacks_type(role: Role, members: &[Member]) -> bool
    ensures { IsTrue result ↔ LacksKeyOf (needed_keys role None) (members_view members.now) }
{
    match role {
        Role::Content | Role::NamedSchema | Role::Schema { .. } => lacks(Key::Type, members),
        _ => false,
    }
}

/// Whether the members lack one of three keys.
#[inline]
fn lacks_three(first: Key, second: Key, third: Key, members: &[Member]) -> bool
    ensures { IsTrue result ↔ LacksKeyOf (first ∷ second ∷ third ∷ []) (members_view members.now) }
{
    if lacks(first, members) {
        return true;
    }
    lacks_two(second, third, members)
}

/// Whether the members lack one of two keys.
#[inline]
fn lacks_two(first: Key, second: Key, members: &[Member]) -> bool
    ensures { IsTrue result ↔ LacksKeyOf (first ∷ second ∷ []) (members_view members.now) }
{
    if lacks(first, members) {
        return true;
    }
    lacks(second, members)
}

/// Whether the members lack this key.
#[inline]
#[tactic(auto, using(crate::proofs::Wanted::lacks_only))]
fn lacks(key: Key, members: &[Member]) -> bool
    ensures missing { IsTrue result ↔ (value_at (key_text key) (members_view members.now) ≡ None) }
    ensures only { IsTrue result ↔ LacksKeyOf (key ∷ []) (members_view members.now) }
{
    value_at(members, key.text()).is_none()
}
