//! Objects whose members are sorted, from members of others.

ghost use Rattle.std.specs.Prelude.{◌≡◌, if◌then◌else◌, not, codes, bytes_eq, IfOk, OnOk};
ghost use Rattle.std.specs.List.Sorted.{IsPermutation, IsSortedBy};
ghost use Rattle.std.specs.Ordering.{is_lt, nat_cmp};
ghost use Rattle.std.specs.Cmp.Lexicographic.{slice_cmp};
ghost use Rattle.json_decimal.specs.Number.{Number};
ghost use Rattle.json_tree.specs.Values.{Json, Members, object, text, no_members, member, member as member_of};
ghost use Rattle.json_tree.specs.View.{view, members_view};
ghost use Rattle.json_tree.specs.Sorting.{IsSortedOf, MembersAreSortedOf};
ghost use Rattle.json_tree.specs.declared.tree.Member.{Member};
ghost use Rattle.json_tree.specs.Members.{members_in};
ghost use Rattle.twin_value.specs.Twins.{picked, same_value, any_key, without_metadata, with_metadata, is_value_role, is_part_role};
ghost use Rattle.twin_value.specs.Machinery.Gathering.{PutsBehind};
ghost use Rattle.twin_value.specs.Machinery.Views.{role_view, keys_role};

use crate::keys::Keys;
use crate::role::Role;
use dt_base::{List, OutOfMemory, Text};
use json_tree::{Member, Tree, members_in, sorted};
use std::alloc::Global;

/// Puts members into the order of their keys.
fn sort_by_key(members: &mut Vec<Member>)
    ensures same { IsPermutation members.old.items members.new.items }
    ensures sorted { IsSortedBy (λ (m n : Member). is_lt (slice_cmp nat_cmp m.key n.key)) members.new.items }
{
    members.sort_unstable_by(|a, b| a.key.as_str().cmp(b.key.as_str()));
}

/// The object of members, in the order of their keys.
pub fn ordered(mut members: Vec<Member>) -> Tree
    ensures { (ms : Members Number) → MembersAreSortedOf ms (members_view members.items) → IsSortedOf (object ms) (view result) }
{
    sort_by_key(&mut members);
    Tree::Members(List::from_vec(members))
}

/// Puts a member with a sorted value behind others.
pub fn push_made(
    members: &mut Vec<Member>,
    alloc: Global,
    key: &str,
    value: Tree,
) -> Result<(), OutOfMemory>
    ensures { OnOk result ((v : Json) → IsSortedOf v (view value) → PutsBehind members.old.items members.new.items (member key.now v no_members)) }
{
    let Ok(key) = Text::from_str(alloc, key) else {
        drop(value);
        return Err(OutOfMemory);
    };
    members.push(Member { key, value })?;
    Ok(())
}

/// The same with a value that is sorted first.
fn push_sorted(
    members: &mut Vec<Member>,
    alloc: Global,
    key: &str,
    value: &Tree,
) -> Result<(), OutOfMemory>
    ensures { OnOk result (PutsBehind members.old.items members.new.items (member key.now (view value.now) no_members)) }
{
    let value = sorted(alloc, value)?;
    push_made(members, alloc, key, value)
}

/// The same with a text.
#[tactic(auto, using(json_tree::proofs::Views::views))]
pub fn push_text(
    members: &mut Vec<Member>,
    alloc: Global,
    key: &str,
    bytes: &str,
) -> Result<(), OutOfMemory>
    ensures { OnOk result (PutsBehind members.old.items members.new.items (member key.now (text bytes.now) no_members)) }
{
    let value = Tree::Text(Text::from_str(alloc, bytes)?);
    push_made(members, alloc, key, value)
}

/// Puts members behind others.
pub fn push_all(
    members: &mut Vec<Member>,
    alloc: Global,
    from: &[Member],
) -> Result<(), OutOfMemory>
    ensures { OnOk result (PutsBehind members.old.items members.new.items (members_view from.now)) }
{
    for member in from {
        push_sorted(members, alloc, member.key.as_str(), &member.value)?;
    }
    Ok(())
}

/// Whether a value is one of a property.
fn is_value(role: Role) -> bool
    ensures { result ≡ is_value_role (role_view role.entry) }
{
    match role {
        Role::Value { .. } => true,
        Role::Anything | Role::Undeclared | Role::Text | Role::Object => false,
        Role::ModelId | Role::TargetId | Role::LinkName | Role::TwinMetadata => false,
        Role::Twin { .. } => false,
        Role::Part { .. } => false,
        Role::Link { .. } => false,
    }
}

/// Whether a value is a component.
fn is_part(role: Role) -> bool
    ensures { result ≡ is_part_role (role_view role.entry) }
{
    match role {
        Role::Part { .. } => true,
        Role::Anything | Role::Undeclared | Role::Text | Role::Object => false,
        Role::ModelId | Role::TargetId | Role::LinkName | Role::TwinMetadata => false,
        Role::Twin { .. } => false,
        Role::Value { .. } => false,
        Role::Link { .. } => false,
    }
}

/// Puts a member behind others where it passes.
fn push_if(
    members: &mut Vec<Member>,
    alloc: Global,
    passes: bool,
    member: &Member,
) -> Result<(), OutOfMemory>
    ensures { OnOk result (PutsBehind members.old.items members.new.items (if passes then member_of member.now.key (view member.now.value) no_members else no_members)) }
{
    if passes {
        push_sorted(members, alloc, member.key.as_str(), &member.value)
    } else {
        Ok(())
    }
}

/// The same of a component, without its `$metadata`.
fn push_part_if(
    members: &mut Vec<Member>,
    alloc: Global,
    passes: bool,
    member: &Member,
) -> Result<(), OutOfMemory>
    ensures { OnOk result (PutsBehind members.old.items members.new.items (if passes then member_of member.now.key (without_metadata (view member.now.value)) no_members else no_members)) }
{
    if passes {
        let value = bare_part(alloc, &member.value)?;
        push_made(members, alloc, member.key.as_str(), value)
    } else {
        Ok(())
    }
}

/// The members that are properties, sorted.
pub fn values_of(alloc: Global, from: &[Member], keys: &Keys) -> Result<Tree, OutOfMemory>
    ensures { IfOk result (λ t. IsSortedOf (object (picked (λ key. is_value_role (keys_role keys.now key)) same_value (members_view from.now))) (view t)) }
{
    let mut members = Vec::with_capacity(alloc, from.len())?;
    for member in from {
        let passes = is_value(keys.role(member.key.as_str()));
        let Ok(()) = push_if(&mut members, alloc, passes, member) else {
            drop(members);
            return Err(OutOfMemory);
        };
    }
    Ok(ordered(members))
}

/// A component without its `$metadata`, sorted.
pub fn bare_part(alloc: Global, part: &Tree) -> Result<Tree, OutOfMemory>
    ensures { IfOk result (λ t. IsSortedOf (without_metadata (view part.now)) (view t)) }
{
    let from = members_in(part);
    let mut members = Vec::with_capacity(alloc, from.len())?;
    for member in from {
        let passes = member.key.as_str() != "$metadata";
        let Ok(()) = push_if(&mut members, alloc, passes, member) else {
            drop(members);
            return Err(OutOfMemory);
        };
    }
    Ok(ordered(members))
}

/// Puts the members that are properties behind some, and those that are components, without their `$metadata`, behind others.
fn push_each(
    values: &mut Vec<Member>,
    parts: &mut Vec<Member>,
    alloc: Global,
    from: &[Member],
    keys: &Keys,
) -> Result<(), OutOfMemory>
    ensures values { OnOk result (PutsBehind values.old.items values.new.items (picked (λ key. is_value_role (keys_role keys.now key)) same_value (members_view from.now))) }
    ensures parts { OnOk result (PutsBehind parts.old.items parts.new.items (picked (λ key. is_part_role (keys_role keys.now key)) without_metadata (members_view from.now))) }
{
    for member in from {
        let role = keys.role(member.key.as_str());
        push_if(values, alloc, is_value(role), member)?;
        push_part_if(parts, alloc, is_part(role), member)?;
    }
    Ok(())
}

/// The members that are properties, and those that are components, each of these without its `$metadata`; both sorted.
pub fn values_and_parts(
    alloc: Global,
    from: &[Member],
    keys: &Keys,
) -> Result<(Tree, Tree), OutOfMemory>
    ensures { IfOk result (λ made. IsSortedOf (object (picked (λ key. is_value_role (keys_role keys.now key)) same_value (members_view from.now))) (view made.0)
        × IsSortedOf (object (picked (λ key. is_part_role (keys_role keys.now key)) without_metadata (members_view from.now))) (view made.1)) }
{
    let mut values = Vec::with_capacity(alloc, from.len())?;
    let mut parts = Vec::new(alloc);
    let Ok(()) = push_each(&mut values, &mut parts, alloc, from, keys) else {
        drop((values, parts));
        return Err(OutOfMemory);
    };
    Ok((ordered(values), ordered(parts)))
}
