//! The parts of values.

ghost use Rattle.std.specs.Prelude.{◌≡◌, ◌≢◌, ◌∷◌, [], Some, None, IfOk};
ghost use Rattle.json_tree.specs.Values.{array, object};
ghost use Rattle.json_tree.specs.View.{view, members_view, elements_view};
ghost use Rattle.json_tree.specs.Members.{value_at};
ghost use Rattle.local_rules.specs.Declarations.{AreEntriesOf};
ghost use Rattle.model_read.specs.Machinery.Shapes.{IsArray, IsObject, MayHave};

use dt_base::{List, OutOfMemory};
use json_tree::{Member, Tree, value_at};
use std::alloc::Global;

/// The members of an object.
#[tactic(auto, using(json_tree::proofs::Views::views))]
pub fn members_of(tree: &Tree) -> &[Member]
    requires { IsObject (view tree.now) }
    ensures { view tree.now ≡ object (members_view result.now) }
{
    match tree {
        Tree::Members(members) => members.as_slice(),
        Tree::Null | Tree::Bool(_) | Tree::Number(_) | Tree::Text(_) | Tree::List(_) => {
            unreachable!()
        }
    }
}

/// The entries of a list.
#[tactic(auto, using(json_tree::proofs::Views::views))]
pub fn entries_of(tree: &Tree) -> &[Tree]
    requires { IsArray (view tree.now) }
    ensures { view tree.now ≡ array (elements_view result.now) }
{
    match tree {
        Tree::List(entries) => entries.as_slice(),
        Tree::Null | Tree::Bool(_) | Tree::Number(_) | Tree::Text(_) | Tree::Members(_) => {
            unreachable!()
        }
    }
}

/// The value under a key that each such object has.
pub fn wanted<'a>(members: &'a [Member], key: &str) -> &'a Tree
    requires { value_at key.now (members_view members.now) ≢ None }
    ensures { value_at key.now (members_view members.now) ≡ Some (view result.now) }
{
    match value_at(members, key) {
        Some(value) => value,
        None => unreachable!(),
    }
}

/// The entries of the list under a key; none where there is no such member.
pub fn entries_at<'a>(members: &'a [Member], key: &str) -> &'a [Tree]
    requires { MayHave IsArray key.now (members_view members.now) }
    ensures { AreEntriesOf (value_at key.now (members_view members.now)) (elements_view result.now) }
{
    match value_at(members, key) {
        Some(value) => entries_of(value),
        None => &[],
    }
}

/// A list of one item.
pub fn list_of_one<T: Drop>(alloc: Global, item: T) -> Result<List<T>, OutOfMemory>
    ensures { IfOk result (λ items. items ≡ item ∷ []) }
{
    let mut items = List::new(alloc);
    items.push(item)?;
    Ok(items)
}
