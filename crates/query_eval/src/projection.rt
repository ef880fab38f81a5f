//! What is given of rows.

ghost use Rattle.std.specs.Prelude.{◌≡◌, ◌∷◌, [], IfOk, OnOk, codes, pos};
ghost use Rattle.canon_text.specs.Numbers.{whole};
ghost use Rattle.graph_steps.specs.Conditions.{source_of};
ghost use Rattle.graph_steps.specs.QueryAsks.{item_members, whole_value, with_item};
ghost use Rattle.json_tree.specs.Values.{object, number, member as member_of, no_members};
ghost use Rattle.json_tree.specs.View.{view as tree_view};
ghost use Rattle.query_eval.specs.Machinery.Gathering.{row_value};
ghost use Rattle.query_eval.specs.Machinery.Seen.{values_view};
ghost use Rattle.query_eval.specs.values.Rows.{row_view, AreKept};

use crate::numbers::of_count;
use crate::values::{Binding, value_at, whole_value};
use dt_base::{List, OutOfMemory, Text};
use json_tree::{Member, Tree};
use query_terms::{Item, Projection};
use std::alloc::Global;
use std::collections::BTreeMap;

/// Gives an item's name the value that its path leads to, where there is one.
fn put_item(
    alloc: Global,
    row: &[Binding<'_>],
    item: &Item,
    values: &mut BTreeMap<Text, Tree>,
) -> Result<(), OutOfMemory>
    requires { AreKept row.now }
    ensures { OnOk result (values_view values.new.entries ≡ with_item (row_view row.now) item.now (values_view values.old.entries)) }
{
    let Some(found) = value_at(alloc, row, item.path.as_slice())? else {
        return Ok(());
    };
    let value = found.into_tree(alloc)?;
    let Ok(name) = item.out.copy(alloc) else {
        drop(value);
        return Err(OutOfMemory);
    };
    let old = values.insert(name, value)?;
    drop(old);
    Ok(())
}

/// The items' values by their names. The last are put first, since of equal names the first counts.
fn item_values(
    alloc: Global,
    row: &[Binding<'_>],
    items: &[Item],
) -> Result<BTreeMap<Text, Tree>, OutOfMemory>
    requires { AreKept row.now }
    ensures { IfOk result (λ values. values_view values.entries ≡ item_members (row_view row.now) items.now) }
{
    let mut values = BTreeMap::new(alloc);
    'items: for at in (0..items.len()).rev() {
        put_item(alloc, row, &items[at], &mut values)?;
    }
    Ok(values)
}

/// The object of values by their names.
fn object_of(alloc: Global, values: BTreeMap<Text, Tree>) -> Result<Tree, OutOfMemory>
    ensures { IfOk result (λ tree. tree_view tree ≡ object (values_view values.entries)) }
{
    let Ok(mut members) = Vec::with_capacity(alloc, values.len()) else {
        drop(values);
        return Err(OutOfMemory);
    };
    'values: for (key, value) in values {
        members.push(Member { key, value })?;
    }
    Ok(Tree::Members(List::from_vec(members)))
}

/// The tree of a row's source.
fn source_value(alloc: Global, row: &[Binding<'_>]) -> Result<Tree, OutOfMemory>
    requires { AreKept row.now }
    ensures { IfOk result (λ tree. tree_view tree ≡ whole_value (source_of (row_view row.now).bound)) }
{
    match row.first() {
        Some(source) => whole_value(alloc, source.element),
        None => Ok(Tree::Members(List::new(alloc))),
    }
}

/// The value that a query gives of a row. Fails only for want of memory.
pub fn value_of(
    alloc: Global,
    select: &Projection,
    row: &[Binding<'_>],
) -> Result<Tree, OutOfMemory>
    requires { AreKept row.now }
    ensures { IfOk result (λ tree. tree_view tree ≡ row_value select.now (row_view row.now)) }
{
    match select {
        Projection::Items { items, .. } => object_of(
            alloc,
            item_values(alloc, row, items.as_slice())?,
        ),
        Projection::Star { .. } | Projection::Count => source_value(alloc, row),
    }
}

/// The value that is given of a count. Fails only for want of memory.
pub fn count_value(alloc: Global, count: u64) -> Result<Tree, OutOfMemory>
    ensures { IfOk result (λ tree. tree_view tree ≡ object (member_of (codes "COUNT") (number (whole (pos count))) no_members)) }
{
    let mut members = Vec::with_capacity(alloc, 1)?;
    let key = Text::from_str(alloc, "COUNT")?;
    let value = Tree::Number(of_count(count));
    members.push(Member { key, value })?;
    Ok(Tree::Members(List::from_vec(members)))
}
