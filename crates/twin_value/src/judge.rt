//! What a value in a role breaks itself.

ghost use Rattle.std.specs.Prelude.{◌≡◌, ◌⊎◌, None};
ghost use Rattle.json_tree.specs.View.{view};
ghost use Rattle.twin_value.specs.Breaches.{Lacks};
ghost use Rattle.twin_value.specs.Roles.{any_text, any_object, model_id, target_id, link_name};
ghost use Rattle.twin_value.specs.Machinery.Sound.{SoundAlone};
ghost use Rattle.twin_value.specs.Machinery.Views.{role_view};
ghost use Rattle.twin_value.specs.Machinery.Walks.{JudgesBody, Lacking};

use crate::code::BodyCode;
use crate::ids::{is_model_id, is_twin_id};
use crate::role::Role;
use crate::shapes::{is_object, is_of};
use dt_base::names::is_name;
use json_tree::{Tree, text_in, value_in};

/// The first code that a value breaks that is to be a text.
fn broken_text(tree: &Tree) -> Option<BodyCode>
    ensures { JudgesBody any_text (view tree.now) result }
{
    match text_in(tree) {
        Some(_text) => None,
        None => Some(BodyCode::WrongKind),
    }
}

/// The same of the identifier of a model.
fn broken_model_id(tree: &Tree) -> Option<BodyCode>
    ensures { JudgesBody model_id (view tree.now) result }
{
    let Some(text) = text_in(tree) else {
        return Some(BodyCode::WrongKind);
    };
    if is_model_id(text) {
        None
    } else {
        Some(BodyCode::BadId)
    }
}

/// The same of the identifier of a target.
fn broken_target_id(tree: &Tree) -> Option<BodyCode>
    ensures { JudgesBody target_id (view tree.now) result }
{
    let Some(text) = text_in(tree) else {
        return Some(BodyCode::WrongKind);
    };
    if is_twin_id(text) {
        None
    } else {
        Some(BodyCode::BadId)
    }
}

/// The same of the name of a relationship.
fn broken_link_name(tree: &Tree) -> Option<BodyCode>
    ensures { JudgesBody link_name (view tree.now) result }
{
    let Some(text) = text_in(tree) else {
        return Some(BodyCode::WrongKind);
    };
    if is_name(text) {
        None
    } else {
        Some(BodyCode::BadId)
    }
}

/// The same of an object.
fn broken_object(tree: &Tree) -> Option<BodyCode>
    ensures { JudgesBody any_object (view tree.now) result }
{
    if is_object(tree) {
        None
    } else {
        Some(BodyCode::WrongKind)
    }
}

/// The same of an object that must have a member.
fn lacks_one(tree: &Tree, key: &str) -> Option<BodyCode>
    ensures { Lacking (Lacks key.now (view tree.now)) (view tree.now) result }
{
    if !is_object(tree) {
        return Some(BodyCode::WrongKind);
    }
    match value_in(tree, key) {
        Some(_value) => None,
        None => Some(BodyCode::MissingKey),
    }
}

/// The same of one that must have two.
fn lacks_two(tree: &Tree, key: &str, other: &str) -> Option<BodyCode>
    ensures { Lacking (Lacks key.now (view tree.now) ⊎ Lacks other.now (view tree.now)) (view tree.now) result }
{
    if let Some(code) = lacks_one(tree, key) {
        return Some(code);
    }
    lacks_one(tree, other)
}

/// The first code that a value in a role breaks itself.
pub fn broken_by(role: Role, tree: &Tree) -> Option<BodyCode>
    ensures first { JudgesBody (role_view role.entry) (view tree.now) result }
    ensures sound { result ≡ None → SoundAlone (role_view role.entry) (view tree.now) }
{
    match role {
        Role::Anything => None,
        Role::Undeclared => Some(BodyCode::UnknownMember),
        Role::Text => broken_text(tree),
        Role::Object => broken_object(tree),
        Role::ModelId => broken_model_id(tree),
        Role::TargetId => broken_target_id(tree),
        Role::LinkName => broken_link_name(tree),
        Role::TwinMetadata => lacks_one(tree, "$model"),
        Role::Twin { .. } => lacks_one(tree, "$metadata"),
        Role::Part { .. } => broken_object(tree),
        Role::Link { .. } => lacks_two(tree, "$targetId", "$relationshipName"),
        Role::Value { named: _, schema } => {
            if is_of(schema, tree) {
                None
            } else {
                Some(BodyCode::BadValue)
            }
        }
    }
}
