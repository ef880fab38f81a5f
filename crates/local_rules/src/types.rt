//! The rules on `@context` and `@type`.

ghost use Rattle.std.specs.Prelude.{◌≡◌, ◌≢◌, ◌↔◌, [], ◌∷◌, length, map, IsTrue, MatchOption, None, Some};
ghost use Rattle.json_tree.specs.View.{view};
ghost use Rattle.local_rules.specs.Breaches.{BreaksAlone};
ghost use Rattle.local_rules.specs.Machinery.Firsts.{IsFirstAmong, further_rules, has_semantic_type};
ghost use Rattle.local_rules.specs.Roles.{type_in};
ghost use Rattle.local_rules.specs.Types.{BadContext, BadSemanticType, BadType, MayHaveBeside, NamesNothing, further};

use crate::role::{Element, Position, Role};
use crate::roles::{type_in, type_named};
use crate::rule::LocalRule;
use crate::texts::{is_name, is_text};
use json_tree::Tree;

/// The identifier of the context of DTDL v2.
const CONTEXT: &str = "dtmi:dtdl:context;2";

/// The entry of a list that has one alone.
fn only_entry(entries: &[Tree]) -> Option<&Tree>
    ensures { MatchOption result (length entries.now ≢ 1) (λ entry. entries.now ≡ entry.now ∷ []) }
{
    if entries.len() == 1 {
        Some(&entries[0])
    } else {
        None
    }
}

/// Whether `@context` is neither the context of DTDL v2 nor a list with that one entry.
#[tactic(auto, using(json_tree::proofs::Views::views))]
pub fn is_bad_context(tree: &Tree) -> bool
    ensures { IsTrue result ↔ BadContext Role.Context (view tree.now) }
{
    match tree {
        Tree::List(entries) => match only_entry(entries.as_slice()) {
            Some(entry) => !is_text(entry, CONTEXT),
            None => true,
        },
        Tree::Null | Tree::Bool(_) | Tree::Number(_) | Tree::Text(_) | Tree::Members(_) => {
            !is_text(tree, CONTEXT)
        }
    }
}

/// Whether a value of `@type` that names no type of its position may not stand there: in a payload or an enum entry,
/// any name may.
fn is_bad_untyped(position: Position, tree: &Tree) -> bool
    ensures { type_in position (view tree.now) ≡ None → (IsTrue result ↔ NamesNothing position (view tree.now)) }
{
    match position {
        Position::Free => !is_name(tree),
        Position::Interface | Position::Content | Position::Property | Position::Schema => true,
    }
}

/// An entry of `@type` and those behind it.
#[derive(Clone, Copy)]
pub struct Further<'a> {
    /// The entry.
    pub entry: &'a Tree,
    /// Those behind it.
    pub rest: &'a [Tree],
}

/// The first entry that names no type of the position.
pub fn first_further(position: Position, entries: &[Tree]) -> Option<Further<'_>>
    ensures { MatchOption result (further position (map view entries.now) ≡ []) (λ found. further position (map view entries.now) ≡ view found.entry.now ∷ further position (map view found.rest.now)) }
{
    for (at, entry) in entries.iter().enumerate() {
        if type_named(position, entry).is_none() {
            let rest = &entries[at + 1..];
            return Some(Further { entry, rest });
        }
    }
    None
}

/// Whether an element of this kind may have a semantic type.
fn has_semantic_type(element: Element) -> bool
    ensures { result ≡ has_semantic_type element }
{
    matches!(element, Element::Telemetry | Element::Property)
}

/// Whether what stands beside the type in a list `@type` may stand there.
fn may_have_beside(element: Element, position: Position, entries: &[Tree]) -> bool
    ensures { IsTrue result ↔ MayHaveBeside element (further position (map view entries.now)) }
{
    match first_further(position, entries) {
        None => true,
        Some(Further { entry, rest }) => {
            has_semantic_type(element) && is_name(entry) && first_further(position, rest).is_none()
        }
    }
}

/// Whether a value of `@type` that names this element is a list with further entries that it may not have.
#[tactic(auto, using(json_tree::proofs::Views::views))]
fn has_bad_beside(element: Element, position: Position, tree: &Tree) -> bool
    ensures { type_in position (view tree.now) ≡ Some element → (IsTrue result ↔ BadSemanticType (Role.Type position) (view tree.now)) }
{
    match tree {
        Tree::List(entries) => !may_have_beside(element, position, entries.as_slice()),
        Tree::Null | Tree::Bool(_) | Tree::Number(_) | Tree::Text(_) | Tree::Members(_) => false,
    }
}

/// The first rule that a value of `@type` breaks.
pub fn type_rule(position: Position, tree: &Tree) -> Option<LocalRule>
    ensures { IsFirstAmong (λ broken. BreaksAlone broken (Role.Type position) (view tree.now)) (further_rules (Role.Type position)) result }
{
    match type_in(position, tree) {
        Some(element) => has_bad_beside(element, position, tree).then_some(
            LocalRule::BadSemanticType,
        ),
        None => is_bad_untyped(position, tree).then_some(LocalRule::BadType),
    }
}
