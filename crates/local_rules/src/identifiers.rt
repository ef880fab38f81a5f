//! The rules on identifiers.

ghost use Rattle.std.specs.Prelude.{◌≡◌, ◌↔◌, IsTrue};
ghost use Rattle.json_tree.specs.View.{view};
ghost use Rattle.local_rules.specs.Breaches.{BreaksAlone};
ghost use Rattle.local_rules.specs.Machinery.Firsts.{IdBreaks, IdBreaksAt, IsFirstAmong, further_rules, id_rules, schema_id_use};
ghost use Rattle.local_rules.specs.Identifiers.{HasForm, of_element, of_interface};

use crate::lists::has_too_many_parents;
use crate::role::Role;
use crate::rule::LocalRule;
use dt_base::names::{has_dtmi_form, is_reserved_id};
use json_tree::Tree;

/// The most bytes of the identifier of an interface.
const MOST_OF_INTERFACE: usize = 128;

/// The most bytes of any other identifier.
const MOST_OF_ELEMENT: usize = 2048;

/// The first rule that the identifier of an interface breaks.
fn interface_id_text_rule(text: &str) -> Option<LocalRule>
    ensures { IsFirstAmong (IdBreaks of_interface text.now) id_rules result }
{
    if !has_dtmi_form(text) {
        return Some(LocalRule::BadId);
    }
    if is_reserved_id(text) {
        return Some(LocalRule::ReservedId);
    }
    (text.len() > MOST_OF_INTERFACE).then_some(LocalRule::LongInterfaceId)
}

/// The first rule that another identifier breaks.
fn element_id_text_rule(text: &str) -> Option<LocalRule>
    ensures { IsFirstAmong (IdBreaks of_element text.now) id_rules result }
{
    if !has_dtmi_form(text) {
        return Some(LocalRule::BadId);
    }
    if is_reserved_id(text) {
        return Some(LocalRule::ReservedId);
    }
    (text.len() > MOST_OF_ELEMENT).then_some(LocalRule::LongElementId)
}

/// The first rule that an identifier of an interface breaks.
#[tactic(auto, using(json_tree::proofs::Views::views))]
pub fn interface_id_rule(tree: &Tree) -> Option<LocalRule>
    ensures { IsFirstAmong (IdBreaksAt (λ _. of_interface) (view tree.now)) id_rules result }
{
    match tree {
        Tree::Text(text) => interface_id_text_rule(text.as_str()),
        Tree::Null | Tree::Bool(_) | Tree::Number(_) | Tree::List(_) | Tree::Members(_) => None,
    }
}

/// The first rule that another identifier breaks.
#[tactic(auto, using(json_tree::proofs::Views::views))]
pub fn element_id_rule(tree: &Tree) -> Option<LocalRule>
    ensures { IsFirstAmong (IdBreaksAt (λ _. of_element) (view tree.now)) id_rules result }
{
    match tree {
        Tree::Text(text) => element_id_text_rule(text.as_str()),
        Tree::Null | Tree::Bool(_) | Tree::Number(_) | Tree::List(_) | Tree::Members(_) => None,
    }
}

/// The first rule on identifiers that a text in the role of a schema breaks: it is one where it begins with `dtmi:`.
#[tactic(auto, using(json_tree::proofs::Views::views))]
pub fn schema_id_rule(tree: &Tree) -> Option<LocalRule>
    ensures { IsFirstAmong (IdBreaksAt schema_id_use (view tree.now)) id_rules result }
{
    match tree {
        Tree::Text(text) => schema_text_rule(text.as_str()),
        Tree::Null | Tree::Bool(_) | Tree::Number(_) | Tree::List(_) | Tree::Members(_) => None,
    }
}

/// The same of a text.
fn schema_text_rule(text: &str) -> Option<LocalRule>
    ensures { IsFirstAmong (IdBreaks (schema_id_use text.now) text.now) id_rules result }
{
    if text.starts_with("dtmi:") {
        element_id_text_rule(text)
    } else {
        None
    }
}

/// The first rule that a value of `extends` breaks.
pub fn parents_rule(tree: &Tree) -> Option<LocalRule>
    ensures { IsFirstAmong (λ broken. BreaksAlone broken Role.Extends (view tree.now)) (further_rules Role.Extends) result }
{
    match interface_id_rule(tree) {
        Some(rule) => Some(rule),
        None => has_too_many_parents(tree).then_some(LocalRule::TooManyParents),
    }
}
