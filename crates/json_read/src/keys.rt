//! Keys that stand twice in one object. This is no matter of the grammar: it is judged on the tree.

ghost use Rattle.std.specs.Prelude.{◌≡◌, [], map, IfOk};
ghost use Rattle.std.specs.Option.{option_map};
ghost use Rattle.json_tree.specs.Values.{array, object};
ghost use Rattle.json_tree.specs.View.{view, elements_view, members_view};
ghost use Rattle.json_read.specs.Machinery.Ways.{IsFirstDuplicate, has_key, repeat_at};

use dt_base::OutOfMemory;
use json_tree::{Buckets, Member, Tree};
use std::alloc::Global;
use std::collections::BTreeSet;

/// Up to so many members, a key whose bucket is used is compared with each one before it, which takes no memory.
const FEW_MEMBERS: usize = 32;

/// The way up from the first value, in preorder, of a member with a key that an earlier one has: its position in the
/// object, then that one's in what it stands in, and so on.
#[cycle(keys)]
#[inline(always)]
pub fn first_duplicate(alloc: Global, tree: &Tree) -> Result<Option<Vec<u64>>, OutOfMemory>
    ensures { IfOk result (λ up. IsFirstDuplicate (view tree.now) (option_map (λ v. v.items) up)) }
{
    match tree {
        Tree::Null => Ok(None),
        Tree::Bool(_) => Ok(None),
        Tree::Number(_) => Ok(None),
        Tree::Text(_) => Ok(None),
        Tree::List(items) => first_in_items(alloc, items.as_slice()),
        Tree::Members(members) => {
            let members = members.as_slice();
            let repeat = first_repeat(alloc, members)?;
            first_in_members(alloc, members, repeat)
        }
    }
}

#[cycle(keys)]
fn first_in_items(alloc: Global, items: &[Tree]) -> Result<Option<Vec<u64>>, OutOfMemory>
    ensures { IfOk result (λ up. IsFirstDuplicate (array (elements_view items.now)) (option_map (λ v. v.items) up)) }
{
    for (at, item) in items.iter().enumerate() {
        if let Some(mut steps) = first_duplicate(alloc, item)? {
            steps.push(at as u64)?;
            return Ok(Some(steps));
        }
    }
    Ok(None)
}

/// The same in the members of an object, of which this is the first whose key an earlier one has.
#[cycle(keys)]
fn first_in_members(
    alloc: Global,
    members: &[Member],
    repeat: usize,
) -> Result<Option<Vec<u64>>, OutOfMemory>
    requires { repeat ≡ repeat_at [] (map (λ m. m.key) members.now) }
    ensures { IfOk result (λ up. IsFirstDuplicate (object (members_view members.now)) (option_map (λ v. v.items) up)) }
{
    for (at, member) in members.iter().enumerate() {
        if at == repeat {
            let mut steps = Vec::new(alloc);
            steps.push(at as u64)?;
            return Ok(Some(steps));
        }
        if let Some(mut steps) = first_duplicate(alloc, &member.value)? {
            steps.push(at as u64)?;
            return Ok(Some(steps));
        }
    }
    Ok(None)
}

/// The position of the first member whose key an earlier one has, or else how many they are.
fn first_repeat(alloc: Global, members: &[Member]) -> Result<usize, OutOfMemory>
    ensures { IfOk result (λ n. n ≡ repeat_at [] (map (λ m. m.key) members.now)) }
{
    if members.len() <= FEW_MEMBERS {
        Ok(first_repeat_of_few(members))
    } else {
        first_repeat_of_many(alloc, members)
    }
}

fn has_key(members: &[Member], key: &str) -> bool
    ensures { result ≡ has_key (map (λ m. m.key) members.now) key.now }
{
    for member in members {
        if member.key.as_str() == key {
            return true;
        }
    }
    false
}

fn first_repeat_of_few(members: &[Member]) -> usize
    ensures { result ≡ repeat_at [] (map (λ m. m.key) members.now) }
{
    let mut buckets = Buckets::new();
    for (at, member) in members.iter().enumerate() {
        let key = member.key.as_str();
        if buckets.put(key) && has_key(&members[..at], key) {
            return at;
        }
    }
    members.len()
}

fn first_repeat_of_many(alloc: Global, members: &[Member]) -> Result<usize, OutOfMemory>
    ensures { IfOk result (λ n. n ≡ repeat_at [] (map (λ m. m.key) members.now)) }
{
    let mut seen = BTreeSet::new(alloc);
    for (at, member) in members.iter().enumerate() {
        if !seen.insert(member.key.as_str())? {
            return Ok(at);
        }
    }
    Ok(members.len())
}
