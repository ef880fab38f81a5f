//! Copies of conditions, made without a recursion: a chain of a thousand ANDs is a thousand conditions deep.

ghost use Rattle.std.specs.Prelude.{◌≡◌, ◌≢◌, ◌<◌, ◌+◌, ◌∷◌, [], map, Some, None, IfOk, OnOk};
ghost use Rattle.query_terms.specs.Conditions.{Condition, condition};
ghost use Rattle.query_terms.specs.Machinery.Weights.{weight, total_weight};
ghost use Rattle.query_terms.specs.Machinery.Parts.{placed, rebuilt, stacked};

use crate::cond::{Cond, PartKind};
use crate::copies::{copy_literals, copy_text, copy_texts};
use crate::operand::{Compare, Literal, Operand};
use dt_base::names::Dtmi;
use dt_base::{List, OutOfMemory, Text};
use std::alloc::Global;

/// Puts the conditions of which one consists on those that wait, the first one on top.
fn wait_for_parts<'a>(waiting: &mut Vec<&'a Cond>, cond: &'a Cond) -> Result<(), OutOfMemory>
    ensures parts { OnOk result (placed cond.now (stacked (map (λ c. c.now) waiting.new.items))
        ≡ Some (condition cond.now ∷ stacked (map (λ c. c.now) waiting.old.items))) }
    ensures lighter { OnOk result (total_weight (map (λ c. c.now) waiting.new.items) < total_weight (map (λ c. c.now) waiting.old.items) + weight cond.now) }
{
    match cond {
        Cond::Or(left, right) => {
            waiting.push(right.as_ref())?;
            waiting.push(left.as_ref())?;
            Ok(())
        }
        Cond::And(left, right) => {
            waiting.push(right.as_ref())?;
            waiting.push(left.as_ref())?;
            Ok(())
        }
        Cond::Not(inner) => {
            waiting.push(inner.as_ref())?;
            Ok(())
        }
        _ => Ok(()),
    }
}

/// A condition and all within it, each before its parts.
pub(crate) fn parts_of<'a>(alloc: Global, cond: &'a Cond) -> Result<Vec<&'a Cond>, OutOfMemory>
    ensures { IfOk result (λ parts. rebuilt (map (λ c. c.now) parts.items) [] ≡ Some (condition cond.now ∷ [])) }
{
    let mut parts = Vec::new(alloc);
    let mut waiting = Vec::new(alloc);
    waiting.push(cond)?;
    'waiting: while let Some(next) = waiting.pop() {
        wait_for_parts(&mut waiting, next)?;
        parts.push(next)?;
    }
    Ok(parts)
}

/// The copy on top, which then is there no more.
fn top(alloc: Global, copies: &mut Vec<Cond>) -> Result<Box<Cond>, OutOfMemory>
    requires { stacked copies.old.items ≢ [] }
    ensures { IfOk result (λ copy. stacked copies.old.items ≡ condition copy.value ∷ stacked copies.new.items) }
{
    match copies.pop() {
        Some(copy) => Ok(Box::new(alloc, copy)?),
        None => unreachable!(),
    }
}

/// A copy of a condition, from the copies of its parts, which are on top and then are there no more.
pub(crate) fn copy_part(
    alloc: Global,
    part: &Cond,
    copies: &mut Vec<Cond>,
) -> Result<Cond, OutOfMemory>
    requires { placed part.now (stacked copies.old.items) ≢ None }
    ensures { IfOk result (λ copy. Some (condition copy ∷ stacked copies.new.items) ≡ placed part.now (stacked copies.old.items)) }
{
    match part {
        Cond::Or(_, _) => {
            let (first, second) = top_two(alloc, copies)?;
            Ok(Cond::Or(first, second))
        }
        Cond::And(_, _) => {
            let (first, second) = top_two(alloc, copies)?;
            Ok(Cond::And(first, second))
        }
        Cond::Not(_) => Ok(Cond::Not(top(alloc, copies)?)),
        Cond::Compare(left, compare, right) => copy_compare(alloc, left, *compare, right),
        Cond::Among(operand, literals) => {
            let (operand, literals) = copy_choice(alloc, operand, literals)?;
            Ok(Cond::Among(operand, literals))
        }
        Cond::NotAmong(operand, literals) => {
            let (operand, literals) = copy_choice(alloc, operand, literals)?;
            Ok(Cond::NotAmong(operand, literals))
        }
        Cond::Is(kind, path) => Ok(Cond::Is(*kind, copy_texts(alloc, path.as_slice())?)),
        Cond::Part(kind, whole, part) => copy_part_of_text(alloc, *kind, whole, part),
        Cond::OfModel { twin, model, exact } => copy_of_model(alloc, twin, model, *exact),
    }
}

/// The two copies on top, the uppermost one first, which then are there no more.
fn top_two(alloc: Global, copies: &mut Vec<Cond>) -> Result<(Box<Cond>, Box<Cond>), OutOfMemory>
    requires some { stacked copies.old.items ≢ [] }
    requires more { (c : Condition) → stacked copies.old.items ≢ c ∷ [] }
    ensures { IfOk result (λ two. stacked copies.old.items ≡ condition two.0.value ∷ condition two.1.value ∷ stacked copies.new.items) }
{
    let first = top(alloc, copies)?;
    let second = top(alloc, copies)?;
    Ok((first, second))
}

/// A comparison with equal parts.
fn copy_compare(
    alloc: Global,
    left: &Operand,
    compare: Compare,
    right: &Operand,
) -> Result<Cond, OutOfMemory>
    ensures { IfOk result (λ copy. copy ≡ Cond.Compare left.now compare right.now) }
{
    let left = left.copy(alloc)?;
    let right = right.copy(alloc)?;
    Ok(Cond::Compare(left, compare, right))
}

/// An equal operand and equal literals.
fn copy_choice(
    alloc: Global,
    operand: &Operand,
    literals: &List<Literal>,
) -> Result<(Operand, List<Literal>), OutOfMemory>
    ensures { IfOk result (λ copies. copies ≡ (operand.now, literals.now)) }
{
    let operand = operand.copy(alloc)?;
    let literals = copy_literals(alloc, literals.as_slice())?;
    Ok((operand, literals))
}

/// A condition on a part of a text with equal parts.
fn copy_part_of_text(
    alloc: Global,
    kind: PartKind,
    whole: &Operand,
    part: &Operand,
) -> Result<Cond, OutOfMemory>
    ensures { IfOk result (λ copy. copy ≡ Cond.Part kind whole.now part.now) }
{
    let whole = whole.copy(alloc)?;
    let part = part.copy(alloc)?;
    Ok(Cond::Part(kind, whole, part))
}

/// A condition on a twin's model with equal parts.
fn copy_of_model(
    alloc: Global,
    twin: &Option<Text>,
    model: &Dtmi,
    exact: bool,
) -> Result<Cond, OutOfMemory>
    ensures { IfOk result (λ copy. copy ≡ Cond.OfModel twin.now model.now exact) }
{
    let twin = copy_text(alloc, twin)?;
    let model = model.copy(alloc)?;
    Ok(Cond::OfModel { twin, model, exact })
}
