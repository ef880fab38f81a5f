//! Equal values in memory of their own.

ghost use Rattle.std.specs.Prelude.{◌≡◌, IfOk};

use crate::tree::{Member, Tree};
use dt_base::{List, OutOfMemory};
use std::alloc::Global;

impl Tree {
    /// An equal tree. Fails only for want of memory. The call goes down as deep as the tree nests.
    #[cycle(copies)]
    pub fn copy(&self, alloc: Global) -> Result<Tree, OutOfMemory>
        ensures { IfOk result (λ tree. tree ≡ self.now) }
    {
        match self {
            Tree::Null => Ok(Tree::Null),
            Tree::Bool(value) => Ok(Tree::Bool(*value)),
            Tree::Number(decimal) => Ok(Tree::Number(*decimal)),
            Tree::Text(text) => {
                let text = text.copy(alloc)?;
                Ok(Tree::Text(text))
            }
            Tree::List(items) => {
                let items = copy_items(alloc, items.as_slice())?;
                Ok(Tree::List(List::from_vec(items)))
            }
            Tree::Members(members) => {
                let members = copy_members(alloc, members.as_slice())?;
                Ok(Tree::Members(List::from_vec(members)))
            }
        }
    }
}

impl Member {
    /// An equal member. Fails only for want of memory. The call goes down as deep as its value nests.
    #[cycle(copies)]
    pub fn copy(&self, alloc: Global) -> Result<Member, OutOfMemory>
        ensures { IfOk result (λ member. member ≡ self.now) }
    {
        let key = self.key.copy(alloc)?;
        let value = self.value.copy(alloc)?;
        Ok(Member { key, value })
    }
}

#[cycle(copies)]
fn copy_items(alloc: Global, items: &[Tree]) -> Result<Vec<Tree>, OutOfMemory>
    ensures { IfOk result (λ copies. copies.items ≡ items.now) }
{
    let mut copies = Vec::with_capacity(alloc, items.len())?;
    for item in items {
        copies.push(item.copy(alloc)?)?;
    }
    Ok(copies)
}

#[cycle(copies)]
fn copy_members(alloc: Global, members: &[Member]) -> Result<Vec<Member>, OutOfMemory>
    ensures { IfOk result (λ copies. copies.items ≡ members.now) }
{
    let mut copies = Vec::with_capacity(alloc, members.len())?;
    for member in members {
        copies.push(member.copy(alloc)?)?;
    }
    Ok(copies)
}
