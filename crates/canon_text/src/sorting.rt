//! Named values in the order of their names.

ghost use Rattle.std.specs.Prelude.{◌≡◌, map, IfOk, OnOk};
ghost use Rattle.std.specs.Option.{option_map};
ghost use Rattle.json_tree.specs.View.{view, member_view};
ghost use Rattle.canon_text.specs.Machinery.Pairs.{pair_name, pair_value};
ghost use Rattle.canon_text.specs.Sorting.{sorted_by};
ghost use Rattle.canon_text.specs.Objects.{list_in_order, members_in_order, unless_empty};

use dt_base::{List, OutOfMemory};
use json_tree::{Member, Tree};
use std::alloc::Global;

/// Puts values into the order of their names.
fn sort(values: &mut Vec<Member>) -> Result<(), OutOfMemory>
    ensures { OnOk result (map member_view values.new.items ≡ sorted_by pair_name (map member_view values.old.items)) }
{
    values.sort_by(|a, b| a.key.as_str().cmp(b.key.as_str()))?;
    Ok(())
}

/// The values without their names.
fn without_names(alloc: Global, values: Vec<Member>) -> Result<Vec<Tree>, OutOfMemory>
    ensures { IfOk result (λ trees. map view trees.items ≡ map pair_value (map member_view values.items)) }
{
    let mut trees = Vec::with_capacity(alloc, values.len())?;
    let mut left = values;
    'left: while let Some(value) = left.pop() {
        trees.push(value.value)?;
    }
    trees.reverse();
    Ok(trees)
}

/// A list of values, in the order of their names.
pub(crate) fn list_in_order(alloc: Global, values: Vec<Member>) -> Result<Tree, OutOfMemory>
    ensures { IfOk result (λ tree. view tree ≡ list_in_order (map member_view values.items)) }
{
    let mut values = values;
    sort(&mut values)?;
    let trees = without_names(alloc, values)?;
    Ok(Tree::List(List::from_vec(trees)))
}

/// The same, where there are values.
pub(crate) fn optional_list(alloc: Global, values: Vec<Member>) -> Result<Option<Tree>, OutOfMemory>
    ensures { IfOk result (λ tree. option_map view tree ≡ unless_empty list_in_order (map member_view values.items)) }
{
    if values.is_empty() {
        return Ok(None);
    }
    Ok(Some(list_in_order(alloc, values)?))
}

/// An object of values by their names, in the order of these, where there are values.
pub(crate) fn optional_object(members: Vec<Member>) -> Result<Option<Tree>, OutOfMemory>
    ensures { IfOk result (λ tree. option_map view tree ≡ unless_empty members_in_order (map member_view members.items)) }
{
    if members.is_empty() {
        return Ok(None);
    }
    let mut members = members;
    sort(&mut members)?;
    Ok(Some(Tree::Members(List::from_vec(members))))
}
