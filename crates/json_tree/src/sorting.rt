//! Members in the order of their keys.

ghost use Rattle.std.specs.Prelude.{◌≡◌, IfOk};
ghost use Rattle.std.specs.List.Sorted.{IsPermutation, IsSortedBy};
ghost use Rattle.std.specs.Ordering.{is_lt, nat_cmp};
ghost use Rattle.std.specs.Cmp.Lexicographic.{slice_cmp};
ghost use Rattle.json_tree.specs.View.{view, elements_view, members_view};
ghost use Rattle.json_tree.specs.Sorting.{IsSortedOf, ElementsAreSortedOf, MembersAreSortedOf};
ghost use Rattle.json_tree.specs.declared.tree.Member.{Member};

use crate::tree::{Member, Tree};
use dt_base::{List, OutOfMemory};
use std::alloc::Global;

/// Puts members into the order of their keys.
fn sort_by_key(members: &mut Vec<Member>)
    ensures same { IsPermutation members.old.items members.new.items }
    ensures sorted { IsSortedBy (λ (m n : Member). is_lt (slice_cmp nat_cmp m.key n.key)) members.new.items }
{
    members.sort_unstable_by(|a, b| a.key.as_str().cmp(b.key.as_str()));
}

/// An equal tree but that the members of each object, at every depth, stand in the order of the bytes of their keys. Fails
/// only for want of memory. The call goes down as deep as the tree nests.
#[cycle(sorts)]
pub fn sorted(alloc: Global, tree: &Tree) -> Result<Tree, OutOfMemory>
    ensures { IfOk result (λ t. IsSortedOf (view tree.now) (view t)) }
{
    match tree {
        Tree::Null => Ok(Tree::Null),
        Tree::Bool(value) => Ok(Tree::Bool(*value)),
        Tree::Number(decimal) => Ok(Tree::Number(*decimal)),
        Tree::Text(text) => {
            let text = text.copy(alloc)?;
            Ok(Tree::Text(text))
        }
        Tree::List(items) => {
            let items = sorted_items(alloc, items.as_slice())?;
            Ok(Tree::List(List::from_vec(items)))
        }
        Tree::Members(members) => {
            let mut members = sorted_values(alloc, members.as_slice())?;
            sort_by_key(&mut members);
            Ok(Tree::Members(List::from_vec(members)))
        }
    }
}

/// Each item sorted.
#[cycle(sorts)]
fn sorted_items(alloc: Global, items: &[Tree]) -> Result<Vec<Tree>, OutOfMemory>
    ensures { IfOk result (λ ts. ElementsAreSortedOf (elements_view items.now) (elements_view ts.items)) }
{
    let mut copies = Vec::with_capacity(alloc, items.len())?;
    for item in items {
        copies.push(sorted(alloc, item)?)?;
    }
    Ok(copies)
}

/// Each member with its value sorted.
#[cycle(sorts)]
fn sorted_values(alloc: Global, members: &[Member]) -> Result<Vec<Member>, OutOfMemory>
    ensures { IfOk result (λ ms. MembersAreSortedOf (members_view members.now) (members_view ms.items)) }
{
    let mut copies = Vec::with_capacity(alloc, members.len())?;
    for member in members {
        let key = member.key.copy(alloc)?;
        let value = sorted(alloc, &member.value)?;
        copies.push(Member { key, value })?;
    }
    Ok(copies)
}
