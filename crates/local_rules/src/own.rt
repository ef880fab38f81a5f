//! The first rule that a value breaks by itself and by its place in a list or an object.

ghost use Rattle.std.specs.Prelude.{◌≡◌, ◌⊎◌};
ghost use Rattle.json_tree.specs.View.{view};
ghost use Rattle.local_rules.specs.Breaches.{BreaksAlone, IsFirstOf};
ghost use Rattle.local_rules.specs.Machinery.Firsts.{IsFirstAmong, further_rules};
ghost use Rattle.local_rules.specs.Machinery.Marks.{BreaksMark};

use crate::identifiers::{element_id_rule, interface_id_rule, parents_rule, schema_id_rule};
use crate::kinds::{is_of_kind, kind_of, lacks_key};
use crate::lists::{has_too_many_contents, has_too_many_enum_values, has_too_many_fields};
use crate::marks::MarkedRole;
use crate::quantities::{
    is_bad_map_key, is_bad_max_multiplicity, is_bad_min_multiplicity, is_bad_value_schema,
    is_none_of,
};
use crate::role::{Role, SchemaUse};
use crate::rule::{LocalRule, earlier};
use crate::texts::{
    is_bad_command_type, is_bad_name, is_bad_unit, is_long_comment, localized_rule,
    localized_text_rule,
};
use crate::types::{is_bad_context, type_rule};
use json_tree::Tree;

/// The first rule that a value breaks, of those that its role and its value alone decide, and those that its place in
/// a list or an object decides, as its mark tells. Takes no memory.
pub fn marked_rule(marked: MarkedRole, tree: &Tree) -> Option<LocalRule>
    ensures { IsFirstOf (λ broken. BreaksAlone broken marked.role (view tree.now) ⊎ BreaksMark broken marked) result }
{
    earlier(own_rule(marked.role, tree), marked.mark_rule())
}

/// The first rule that a value in a role breaks, of those that the role and the value alone decide.
fn own_rule(role: Role, tree: &Tree) -> Option<LocalRule>
    ensures { IsFirstOf (λ broken. BreaksAlone broken role (view tree.now)) result }
{
    if !is_of_kind(kind_of(role), tree) {
        return Some(LocalRule::WrongKind);
    }
    further_rule(role, tree)
}

/// The first rule that a value in the role of a schema breaks.
fn schema_rule(part: SchemaUse, tree: &Tree) -> Option<LocalRule>
    ensures { IsFirstAmong (λ broken. BreaksAlone broken (Role.Schema part) (view tree.now)) (further_rules (Role.Schema part)) result }
{
    if lacks_key(Role::Schema { part }, tree) {
        return Some(LocalRule::MissingKey);
    }
    match schema_id_rule(tree) {
        Some(rule) => Some(rule),
        None => is_bad_map_key(part, tree).then_some(LocalRule::BadMapKey),
    }
}

/// The first rule that a value in a role breaks beside the rule on kinds.
fn further_rule(role: Role, tree: &Tree) -> Option<LocalRule>
    ensures { IsFirstAmong (λ broken. BreaksAlone broken role (view tree.now)) (further_rules role) result }
{
    match role {
        Role::Interface
        | Role::Content
        | Role::RelationshipProperty
        | Role::Payload { .. }
        | Role::Field
        | Role::EnumEntry { .. }
        | Role::NamedSchema => lacks_key(role, tree).then_some(LocalRule::MissingKey),
        Role::Schema { part } => schema_rule(part, tree),
        Role::Contents => has_too_many_contents(tree).then_some(LocalRule::TooManyContents),
        Role::Fields => has_too_many_fields(tree).then_some(LocalRule::TooManyFields),
        Role::EnumValues { .. } => {
            has_too_many_enum_values(tree).then_some(LocalRule::TooManyEnumValues)
        }
        Role::Context => is_bad_context(tree).then_some(LocalRule::BadContext),
        Role::Type { position } => type_rule(position, tree),
        Role::Extends => parents_rule(tree),
        Role::Localized { text } => localized_rule(text, tree),
        Role::LocalizedText { text } => localized_text_rule(text, tree),
        Role::Parent | Role::InterfaceId | Role::InterfaceReference => interface_id_rule(tree),
        Role::ElementId => element_id_rule(tree),
        Role::Comment => is_long_comment(tree).then_some(LocalRule::LongComment),
        Role::Name => is_bad_name(tree).then_some(LocalRule::BadName),
        Role::CommandType => is_bad_command_type(tree).then_some(LocalRule::BadCommandType),
        Role::Unit => is_bad_unit(tree).then_some(LocalRule::BadUnit),
        Role::ValueSchema => is_bad_value_schema(tree).then_some(LocalRule::BadValueSchema),
        Role::MinMultiplicity => is_bad_min_multiplicity(tree).then_some(
            LocalRule::BadMultiplicity,
        ),
        Role::MaxMultiplicity => is_bad_max_multiplicity(tree).then_some(
            LocalRule::BadMultiplicity,
        ),
        Role::EnumValue { value_schema } => is_none_of(value_schema, tree).then_some(
            LocalRule::BadEnumValue,
        ),
        Role::Unknown => Some(LocalRule::UnknownKey),
        Role::Schemas | Role::Properties | Role::ListedText | Role::Writable => None,
    }
}
