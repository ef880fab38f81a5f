//! Semantic types (DTDL v2, "Semantic types").

ghost use Rattle.std.specs.Prelude.{◌≡◌, ◌∷◌, [], map, Some, IfOk, codes};
ghost use Rattle.json_tree.specs.Values.{array, text};
ghost use Rattle.json_tree.specs.View.{view, members_view, elements_view};
ghost use Rattle.local_rules.specs.Types.{MayHaveBeside, further};
ghost use Rattle.local_rules.specs.declared.role.Element.TheVariants as element;
ghost use Rattle.local_rules.specs.Declarations.{IsSemantic, HasSemantic};
ghost use Rattle.model_read.specs.Machinery.Shapes.{CanBe, CanBeTypes, MayHave};

use crate::texts::name_of;
use dt_base::OutOfMemory;
use dt_base::names::Name;
use json_tree::{Member, Tree, value_at};
use local_rules::{Further, Position, first_further};
use std::alloc::Global;

/// The name that a further entry is, with none behind it.
fn only_name(alloc: Global, position: Position, found: &Further) -> Result<Name, OutOfMemory>
    requires { CanBe (MayHaveBeside element.Property (view found.now.entry.now ∷ further position (map view found.now.rest.now))) }
    ensures name { IfOk result (λ name. view found.now.entry.now ≡ text name) }
    ensures last { IfOk result (λ name. further position (map view found.now.rest.now) ≡ []) }
{
    match first_further(position, found.rest) {
        None => name_of(alloc, found.entry),
        Some(_) => unreachable!(),
    }
}

/// The semantic type among the entries of a list `@type`.
#[tactic(auto, using(json_tree::proofs::Views::lists))]
fn semantic_among(
    alloc: Global,
    position: Position,
    entries: &[Tree],
) -> Result<Option<Name>, OutOfMemory>
    requires { CanBe (MayHaveBeside element.Property (further position (map view entries.now))) }
    ensures { IfOk result (λ s. IsSemantic position (Some (array (elements_view entries.now))) s) }
{
    match first_further(position, entries) {
        None => Ok(None),
        Some(found) => Ok(Some(only_name(alloc, position, &found)?)),
    }
}

/// The semantic type that a value of `@type` names.
#[tactic(auto, using(json_tree::proofs::Views::views))]
fn semantic_of(alloc: Global, position: Position, tree: &Tree) -> Result<Option<Name>, OutOfMemory>
    requires { CanBeTypes position (view tree.now) }
    ensures { IfOk result (λ s. IsSemantic position (Some (view tree.now)) s) }
{
    match tree {
        Tree::Null => Ok(None),
        Tree::Bool(_) => Ok(None),
        Tree::Number(_) => Ok(None),
        Tree::Text(_) => Ok(None),
        Tree::List(entries) => semantic_among(alloc, position, entries.as_slice()),
        Tree::Members(_) => Ok(None),
    }
}

/// The semantic type of an object at a position, where there is one.
pub fn semantic_at(
    alloc: Global,
    position: Position,
    members: &[Member],
) -> Result<Option<Name>, OutOfMemory>
    requires { MayHave (CanBeTypes position) (codes "@type") (members_view members.now) }
    ensures { IfOk result (λ s. HasSemantic position (members_view members.now) s) }
{
    match value_at(members, "@type") {
        Some(value) => semantic_of(alloc, position, value),
        None => Ok(None),
    }
}
