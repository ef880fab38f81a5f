//! Queries.

ghost use Rattle.std.specs.Prelude.{◌≡◌, ◌-◌, ◌++◌, string_bytes, codes, length, slice_get, IfOk, OnOk};
ghost use Rattle.std.specs.Option.{option_map};
ghost use Rattle.query_terms.specs.Conditions.{condition};
ghost use Rattle.query_terms.specs.Queries.{asked};
ghost use Rattle.query_text.specs.Printed.{is_last, item_text, top_text, select_text, alias_text, join_text, source_text, where_text, query_text, separated, each_behind};

use crate::conditions::push_condition;
use crate::operands::{push_mark, push_path};
use dt_base::{OutOfMemory, Text};
use query_terms::{Cond, Item, Join, Projection, Query};
use std::alloc::{AllocError, Global};

/// The room in bytes that is reserved at the start.
const FIRST_ROOM: usize = 256;

/// Whether the last name of a path is this.
fn is_last(path: &[Text], name: &Text) -> bool
    ensures { result ≡ is_last (slice_get path.now (length path.now - 1)) name.now }
{
    match path.last() {
        Some(last) => *last == *name,
        None => false,
    }
}

fn push_item(out: &mut String, item: &Item) -> Result<(), AllocError>
    ensures { OnOk result (string_bytes out.new ≡ string_bytes out.old ++ item_text item.now) }
{
    push_path(out, item.path.as_slice())?;
    if is_last(item.path.as_slice(), &item.out) {
        return Ok(());
    }
    out.push_str(" AS ")?;
    out.push_str(item.out.as_str())
}

fn push_items(out: &mut String, items: &[Item]) -> Result<(), AllocError>
    ensures { OnOk result (string_bytes out.new ≡ string_bytes out.old ++ separated (codes ",") item_text items.now) }
{
    'items: for (position, item) in items.iter().enumerate() {
        push_mark(out, position, ",")?;
        push_item(out, item)?;
    }
    Ok(())
}

fn push_top(out: &mut String, size: u32) -> Result<(), AllocError>
    ensures { OnOk result (string_bytes out.new ≡ string_bytes out.old ++ top_text size) }
{
    write!(out, "TOP({size})")
}

fn push_select(out: &mut String, select: &Projection) -> Result<(), AllocError>
    ensures { OnOk result (string_bytes out.new ≡ string_bytes out.old ++ select_text select.now) }
{
    match select {
        Projection::Count => out.push_str("COUNT()"),
        Projection::Star { top: None } => out.push('*'),
        Projection::Star { top: Some(size) } => push_top(out, *size),
        Projection::Items { top: None, items } => push_items(out, items.as_slice()),
        Projection::Items {
            top: Some(size),
            items,
        } => {
            push_top(out, *size)?;
            out.push(' ')?;
            push_items(out, items.as_slice())
        }
    }
}

fn push_alias(out: &mut String, alias: &Option<Text>) -> Result<(), AllocError>
    ensures { OnOk result (string_bytes out.new ≡ string_bytes out.old ++ alias_text alias.now) }
{
    match alias {
        Some(alias) => {
            out.push(' ')?;
            out.push_str(alias.as_str())
        }
        None => Ok(()),
    }
}

fn push_join(out: &mut String, join: &Join) -> Result<(), AllocError>
    ensures { OnOk result (string_bytes out.new ≡ string_bytes out.old ++ join_text join.now) }
{
    out.push_str(join.target.as_str())?;
    out.push_str(" RELATED ")?;
    out.push_str(join.from.as_str())?;
    out.push('.')?;
    out.push_str(join.name.as_str())?;
    push_alias(out, &join.rel)
}

fn push_joins(out: &mut String, joins: &[Join]) -> Result<(), AllocError>
    ensures { OnOk result (string_bytes out.new ≡ string_bytes out.old ++ each_behind (codes " JOIN ") join_text joins.now) }
{
    'joins: for join in joins {
        out.push_str(" JOIN ")?;
        push_join(out, join)?;
    }
    Ok(())
}

fn source_text(relationships: bool) -> &'static str
    ensures { result.now ≡ source_text relationships }
{
    if relationships {
        "RELATIONSHIPS"
    } else {
        "DIGITALTWINS"
    }
}

fn push_where(alloc: Global, out: &mut String, cond: &Option<Cond>) -> Result<(), AllocError>
    ensures { OnOk result (string_bytes out.new ≡ string_bytes out.old ++ where_text (option_map condition cond.now)) }
{
    match cond {
        Some(cond) => {
            out.push_str(" WHERE ")?;
            push_condition(alloc, out, cond, 0)
        }
        None => Ok(()),
    }
}

/// The printed form of a query (this project's own), which asks for the same: keywords in capitals, one space around
/// words and none around marks, parentheses only where the grouping needs them, numbers as `Decimal::print` prints them.
/// `TOP(n)` stands alone where rows are given whole, and an item's name only where it is not the last one of its path.
///
/// Fails only for want of memory. It takes no recursion, however deep the condition nests.
pub fn text(alloc: Global, query: &Query) -> Result<Text, OutOfMemory>
    ensures { IfOk result (λ t. t ≡ query_text (asked query.now)) }
{
    let mut out = String::with_capacity(alloc, FIRST_ROOM)?;
    out.push_str("SELECT ")?;
    push_select(&mut out, &query.select)?;
    out.push_str(" FROM ")?;
    out.push_str(source_text(query.relationships))?;
    push_alias(&mut out, &query.alias)?;
    push_joins(&mut out, query.joins.as_slice())?;
    push_where(alloc, &mut out, &query.cond)?;
    Ok(Text::from_string(out))
}
