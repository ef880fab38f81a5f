//! The walk over a body, in preorder.

ghost use Rattle.std.specs.Prelude.{◌≡◌, ℕ, List, [], ◌∷◌, ◌++◌, None, IfOk};
ghost use Rattle.json_tree.specs.Values.{array, object};
ghost use Rattle.json_tree.specs.View.{view, elements_view, members_view};
ghost use Rattle.twin_value.specs.Breaches.{IsBodyBreach};
ghost use Rattle.twin_value.specs.Roles.{body_member_role, Role as RoleOf};
ghost use Rattle.twin_value.specs.Machinery.Views.{role_view, keys_role};
ghost use Rattle.twin_value.specs.Machinery.Walks.{FindsFirstBodyBreach, FindsClear};
ghost use Rattle.twin_value.specs.Machinery.Sound.{Sound, SoundAlone};

use crate::code::BodyCode;
use crate::judge::broken_by;
use crate::keys::Keys;
use crate::role::Role;
use dt_base::OutOfMemory;
use json_tree::{Member, Tree};
use std::alloc::Global;

/// The way up from a breach, and its code.
#[derive(Drop)]
pub struct Found {
    pub steps: Vec<u64>,
    pub code: BodyCode,
}

impl Found {
    /// The same breach, seen from the value in which this part stands.
    pub fn up(mut self, at: usize) -> Result<Found, OutOfMemory>
        ensures { IfOk result (λ found. (found.steps.items ≡ self.steps.items ++ at ∷ []) × (found.code ≡ self.code)) }
    {
        self.steps.push(at as u64)?;
        Ok(self)
    }
}

/// The first breach in a value in a role.
#[cycle(walk)]
pub fn first_in(tree: &Tree, alloc: Global, role: Role) -> Result<Option<Found>, OutOfMemory>
    ensures first { IfOk result (FindsFirstBodyBreach (IsBodyBreach (role_view role.entry) (view tree.now))) }
    ensures sound { IfOk result (λ found. found ≡ None → Sound (role_view role.entry) (view tree.now)) }
{
    if let Some(code) = broken_by(role, tree) {
        return Ok(Some(Found {
            steps: Vec::new(alloc),
            code,
        }));
    }
    match tree {
        Tree::Null | Tree::Bool(_) | Tree::Number(_) | Tree::Text(_) => Ok(None),
        Tree::List(elements) => first_in_elements(elements.as_slice(), alloc, role),
        Tree::Members(members) => first_in_members(members.as_slice(), alloc, role),
    }
}

/// The same in the elements of an array that breaks nothing itself.
#[cycle(walk)]
fn first_in_elements(
    elements: &[Tree],
    alloc: Global,
    role: Role,
) -> Result<Option<Found>, OutOfMemory>
    ensures first { IfOk result (FindsClear (role_view role.entry) (array (elements_view elements.now))) }
    ensures sound { IfOk result (λ found. found ≡ None → SoundAlone (role_view role.entry) (array (elements_view elements.now)) → Sound (role_view role.entry) (array (elements_view elements.now))) }
{
    let part = role.element();
    for (at, element) in elements.iter().enumerate() {
        if let Some(found) = first_in(element, alloc, part)? {
            let found = found.up(at)?;
            return Ok(Some(found));
        }
    }
    Ok(None)
}

/// The same in the members of an object that breaks nothing itself.
#[cycle(walk)]
fn first_in_members(
    members: &[Member],
    alloc: Global,
    role: Role,
) -> Result<Option<Found>, OutOfMemory>
    ensures first { IfOk result (FindsClear (role_view role.entry) (object (members_view members.now))) }
    ensures sound { IfOk result (λ found. found ≡ None → SoundAlone (role_view role.entry) (object (members_view members.now)) → Sound (role_view role.entry) (object (members_view members.now))) }
{
    let keys = Keys::of(alloc, role)?;
    let found = first_under(members, alloc, &keys);
    drop(keys);
    found
}

/// The same in members that these keys judge as those of an object, in a role in which it breaks nothing itself.
#[cycle(walk)]
fn first_under(members: &[Member], alloc: Global, keys: &Keys) -> Result<Option<Found>, OutOfMemory>
    ensures first { IfOk result (λ found. (r : RoleOf) → ((key : List ℕ) → keys_role keys.now key ≡ body_member_role r key)
        → FindsClear r (object (members_view members.now)) found) }
    ensures sound { IfOk result (λ found. found ≡ None → (r : RoleOf) → ((key : List ℕ) → keys_role keys.now key ≡ body_member_role r key)
        → SoundAlone r (object (members_view members.now)) → Sound r (object (members_view members.now))) }
{
    for (at, member) in members.iter().enumerate() {
        let part = keys.role(member.key.as_str());
        if let Some(found) = first_in(&member.value, alloc, part)? {
            let found = found.up(at)?;
            return Ok(Some(found));
        }
    }
    Ok(None)
}
