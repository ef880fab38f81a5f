//! Breaches that show without a model.

ghost use Rattle.std.specs.Prelude.{◌≡◌, ℕ, List, [], None, IfOk, MatchOption};
ghost use Rattle.json_tree.specs.Values.{object};
ghost use Rattle.json_tree.specs.View.{view, members_view};
ghost use Rattle.twin_value.specs.Breaches.{HasNoBreach, IsFirstBodyBreach, IsOuterBreach, IsOuterLinkBreach};
ghost use Rattle.twin_value.specs.Roles.{body_member_role, Role as RoleOf};
ghost use Rattle.twin_value.specs.Machinery.Outer.{IsOuterBodyBreach, IsMild, is_undeclared, IsOutermost, FindsOuterBelow};
ghost use Rattle.twin_value.specs.Machinery.Views.{role_view, keys_role};
ghost use Rattle.twin_value.specs.Machinery.Walks.{FindsFirstBodyBreach};

use crate::code::BodyCode;
use crate::fit::breach_of;
use crate::judge::broken_by;
use crate::keys::Keys;
use crate::library::Library;
use crate::role::Role;
use crate::walk::{Found, first_in};
use dt_base::OutOfMemory;
use json_tree::{Member, Place, Tree, members_in};
use std::alloc::Global;

/// Whether nothing declares what stands in a role.
fn is_undeclared(role: Role) -> bool
    ensures { result ≡ is_undeclared (role_view role.entry) }
{
    match role {
        Role::Undeclared => true,
        Role::Anything | Role::Text | Role::Object => false,
        Role::ModelId | Role::TargetId | Role::LinkName | Role::TwinMetadata => false,
        Role::Twin { .. } => false,
        Role::Part { .. } => false,
        Role::Value { .. } => false,
        Role::Link { .. } => false,
    }
}

/// The first breach that shows without a model in a member of a body; none in one that nothing declares.
fn outer_in_member(tree: &Tree, alloc: Global, role: Role) -> Result<Option<Found>, OutOfMemory>
    requires { IsMild (role_view role) }
    ensures { IfOk result (FindsFirstBodyBreach (IsOuterBodyBreach (role_view role.entry) (view tree.now))) }
{
    if is_undeclared(role) {
        return Ok(None);
    }
    first_in(tree, alloc, role)
}

/// The same in all members of a body that breaks nothing itself.
fn outer_in_members(
    members: &[Member],
    alloc: Global,
    role: Role,
) -> Result<Option<Found>, OutOfMemory>
    requires { IsOutermost (role_view role) }
    ensures { IfOk result (FindsOuterBelow (role_view role.entry) (object (members_view members.now))) }
{
    let keys = Keys::of(alloc, role)?;
    let found = outer_under(members, alloc, &keys);
    drop(keys);
    found
}

/// The same in members that these keys judge as those of a body, in a role in which it breaks nothing itself.
fn outer_under(members: &[Member], alloc: Global, keys: &Keys) -> Result<Option<Found>, OutOfMemory>
    requires { (key : List ℕ) → IsMild (keys_role keys.now key) }
    ensures { IfOk result (λ found. (r : RoleOf) → ((key : List ℕ) → keys_role keys.now key ≡ body_member_role r key)
        → FindsOuterBelow r (object (members_view members.now)) found) }
{
    for (at, member) in members.iter().enumerate() {
        let part = keys.role(member.key.as_str());
        if let Some(found) = outer_in_member(&member.value, alloc, part)? {
            let found = found.up(at)?;
            return Ok(Some(found));
        }
    }
    Ok(None)
}

/// The same in a body.
fn outer_in(tree: &Tree, alloc: Global, role: Role) -> Result<Option<Found>, OutOfMemory>
    requires { IsOutermost (role_view role) }
    ensures { IfOk result (FindsFirstBodyBreach (IsOuterBodyBreach (role_view role.entry) (view tree.now))) }
{
    if let Some(code) = broken_by(role, tree) {
        return Ok(Some(Found {
            steps: Vec::new(alloc),
            code,
        }));
    }
    outer_in_members(members_in(tree), alloc, role)
}

/// The first breach of the body of a twin that shows without a model (this project's own): `WrongKind`, `MissingKey` or
/// `BadId` outside components, in preorder and at one place in the order of the codes; None exactly where there is none.
/// Fails only for want of memory.
pub fn outer_twin_breach(
    alloc: Global,
    tree: &Tree,
) -> Result<Option<(Place, BodyCode)>, OutOfMemory>
    ensures { IfOk result (λ found. MatchOption found (HasNoBreach (IsOuterBreach (view tree.now))) (λ b. IsFirstBodyBreach (IsOuterBreach (view tree.now)) b.0.steps b.1)) }
{
    let library = Library::empty(alloc)?;
    let role = Role::Twin {
        library: &library,
        contents: &[],
    };
    let found = outer_in(tree, alloc, role);
    drop(library);
    match found? {
        Some(found) => Ok(Some(breach_of(found))),
        None => Ok(None),
    }
}

/// The same of the body of a relationship. Fails only for want of memory.
pub fn outer_link_breach(
    alloc: Global,
    tree: &Tree,
) -> Result<Option<(Place, BodyCode)>, OutOfMemory>
    ensures { IfOk result (λ found. MatchOption found (HasNoBreach (IsOuterLinkBreach (view tree.now))) (λ b. IsFirstBodyBreach (IsOuterLinkBreach (view tree.now)) b.0.steps b.1)) }
{
    let library = Library::empty(alloc)?;
    let role = Role::Link {
        library: &library,
        from: None,
        properties: &[],
    };
    let found = outer_in(tree, alloc, role);
    drop(library);
    match found? {
        Some(found) => Ok(Some(breach_of(found))),
        None => Ok(None),
    }
}
