//! Components, and the bodies that they are read from.

ghost use Rattle.std.specs.Prelude.{MatchResult};
ghost use Rattle.json_tree.specs.Sorting.{IsSortedOf};
ghost use Rattle.json_tree.specs.View.{view};
ghost use Rattle.twin_value.specs.Breaches.{IsBodyBreach, HasNoBreach, EndsBy, twin_role_of};
ghost use Rattle.twin_value.specs.Roles.{body_member_role};
ghost use Rattle.twin_value.specs.Machinery.Views.{role_view};
ghost use Rattle.twin_value.specs.Twins.{without_metadata};

use crate::contents::twin_role;
use crate::end::{BodyEnd, judge_body};
use crate::gather::bare_part;
use crate::index::Index;
use crate::library::Library;
use crate::role::Role;
use dtdl_terms::Resolved;
use json_tree::Tree;
use std::alloc::Global;

/// The values of a component in a role.
fn part_by(alloc: Global, tree: &Tree, role: Role) -> Result<Tree, BodyEnd>
    ensures { MatchResult result
        (λ values. HasNoBreach (IsBodyBreach (role_view role.entry) (view tree.now)) × IsSortedOf (without_metadata (view tree.now)) (view values))
        (EndsBy (IsBodyBreach (role_view role.entry) (view tree.now))) }
{
    judge_body(alloc, tree, role)?;
    let values = bare_part(alloc, tree)?;
    Ok(values)
}

/// The values of a component of this name, for which a tree stands (this project's own): the tree's members without its
/// `$metadata`, sorted at every depth. It is judged as the member of this name is in the body of a twin of the resolved
/// model. Fails by the first breach, in preorder and at one place by the number of its code, or for want of memory.
pub fn read_part(
    alloc: Global,
    name: &str,
    tree: &Tree,
    resolved: &Resolved,
) -> Result<Tree, BodyEnd>
    ensures { MatchResult result
        (λ values. HasNoBreach (IsBodyBreach (body_member_role (twin_role_of resolved.now) name.now) (view tree.now)) × IsSortedOf (without_metadata (view tree.now)) (view values))
        (EndsBy (IsBodyBreach (body_member_role (twin_role_of resolved.now) name.now) (view tree.now))) }
{
    let library = Library::of(alloc, resolved)?;
    let Ok(contents) = Index::of(alloc, resolved.contents.as_slice()) else {
        drop(library);
        return Err(BodyEnd::OutOfMemory);
    };
    let values = part_by(alloc, tree, twin_role(&library, &contents, name));
    drop(contents);
    drop(library);
    values
}
