//! Copies of lists and of what may be absent.

ghost use Rattle.std.specs.Prelude.{◌≡◌, IfOk};

use crate::operand::Literal;
use crate::query::{Item, Join};
use dt_base::{List, OutOfMemory, Text};
use std::alloc::Global;

/// An equal text, where there is one.
pub(crate) fn copy_text(alloc: Global, text: &Option<Text>) -> Result<Option<Text>, OutOfMemory>
    ensures { IfOk result (λ copy. copy ≡ text.now) }
{
    match text {
        Some(text) => Ok(Some(text.copy(alloc)?)),
        None => Ok(None),
    }
}

/// A list of equal texts.
pub(crate) fn copy_texts(alloc: Global, texts: &[Text]) -> Result<List<Text>, OutOfMemory>
    ensures { IfOk result (λ copies. copies ≡ texts.now) }
{
    let mut copies = Vec::with_capacity(alloc, texts.len())?;
    for text in texts {
        copies.push(text.copy(alloc)?)?;
    }
    Ok(List::from_vec(copies))
}

/// A list of equal literals.
pub(crate) fn copy_literals(
    alloc: Global,
    literals: &[Literal],
) -> Result<List<Literal>, OutOfMemory>
    ensures { IfOk result (λ copies. copies ≡ literals.now) }
{
    let mut copies = Vec::with_capacity(alloc, literals.len())?;
    for literal in literals {
        copies.push(literal.copy(alloc)?)?;
    }
    Ok(List::from_vec(copies))
}

/// A list of equal items.
pub(crate) fn copy_items(alloc: Global, items: &[Item]) -> Result<List<Item>, OutOfMemory>
    ensures { IfOk result (λ copies. copies ≡ items.now) }
{
    let mut copies = Vec::with_capacity(alloc, items.len())?;
    for item in items {
        copies.push(item.copy(alloc)?)?;
    }
    Ok(List::from_vec(copies))
}

/// A list of equal joins.
pub(crate) fn copy_joins(alloc: Global, joins: &[Join]) -> Result<List<Join>, OutOfMemory>
    ensures { IfOk result (λ copies. copies ≡ joins.now) }
{
    let mut copies = Vec::with_capacity(alloc, joins.len())?;
    for join in joins {
        copies.push(join.copy(alloc)?)?;
    }
    Ok(List::from_vec(copies))
}
