//! When a condition holds of a row.

ghost use Rattle.std.specs.Prelude.{◌≡◌, ◌&&◌, not, false, IfOk};
ghost use Rattle.graph_steps.specs.Conditions.{holds, both_there, there, compares_as, equals_one, is_primitive, is_of_query_kind, is_text_part, operand_value, path_value};
ghost use Rattle.query_eval.specs.values.Rows.{row_view, AreKept};
ghost use Rattle.query_terms.specs.Conditions.{condition};
ghost use Rattle.query_terms.specs.Machinery.Weights.{has_parts};

use crate::conditions::comparing::{compares, equals_none, equals_one};
use crate::conditions::kinds::is_of_kind;
use crate::conditions::parts::is_text_part;
use crate::conditions::sides::side_of;
use crate::conditions::twins::twin_is_of;
use crate::conditions::view::GraphView;
use crate::values::{Binding, value_at};
use dt_base::{OutOfMemory, Text};
use query_terms::{Compare, Cond, Kind, Literal, Operand, PartKind};
use std::alloc::Global;

/// Whether a condition holds of a row of a graph. A chain of `AND`s or `OR`s is judged from its last part to its first, in a
/// loop, and what stands to the left of one only where the right does not decide. Into a right side it goes by a call: as a
/// query is read, the right side of an `OR` may be an `AND`, and that of an `AND` a condition in parentheses, so that the
/// calls nest at most two deeper with each pair of parentheses, however long the chains are. Fails only for want of memory.
pub fn holds<V: GraphView>(
    alloc: Global,
    view: &V,
    row: &[Binding<'_>],
    cond: &Cond,
) -> Result<bool, OutOfMemory>
    requires { AreKept row.now }
    ensures { IfOk result (λ answer. answer ≡ holds (V.state view.now) (row_view row.now) (condition cond.now)) }
{
    let mut left = cond;
    // Whether the answer is the other one of what is left.
    let mut turned = false;
    'parts: loop {
        match left {
            Cond::Or(first, second) => {
                if holds(alloc, view, row, second)? {
                    return Ok(!turned);
                }
                left = first;
            }
            Cond::And(first, second) => {
                if !holds(alloc, view, row, second)? {
                    return Ok(turned);
                }
                left = first;
            }
            Cond::Not(inner) => {
                turned = !turned;
                left = inner;
            }
            _ => return Ok(test_holds(alloc, view, row, left)? != turned),
        }
    }
}

/// Whether a condition without parts holds of a row.
fn test_holds<V: GraphView>(
    alloc: Global,
    view: &V,
    row: &[Binding<'_>],
    test: &Cond,
) -> Result<bool, OutOfMemory>
    requires kept { AreKept row.now }
    requires single { has_parts test.now ≡ false }
    ensures { IfOk result (λ answer. answer ≡ holds (V.state view.now) (row_view row.now) (condition test.now)) }
{
    match test {
        Cond::Or(_, _) | Cond::And(_, _) | Cond::Not(_) => unreachable!(),
        Cond::Compare(left, compare, right) => operands_compare(alloc, row, left, *compare, right),
        Cond::Among(operand, literals) => is_among(alloc, row, operand, literals.as_slice()),
        Cond::NotAmong(operand, literals) => is_not_among(alloc, row, operand, literals.as_slice()),
        Cond::Is(kind, path) => path_is(alloc, row, *kind, path.as_slice()),
        Cond::Part(kind, whole, part) => operand_is_part(alloc, row, *kind, whole, part),
        Cond::OfModel { twin, model, exact } => {
            Ok(twin_is_of(view, row, twin.as_ref(), model, *exact))
        }
    }
}

/// Whether two operands are there and compare so.
fn operands_compare(
    alloc: Global,
    row: &[Binding<'_>],
    left: &Operand,
    compare: Compare,
    right: &Operand,
) -> Result<bool, OutOfMemory>
    requires { AreKept row.now }
    ensures { IfOk result (λ answer. answer ≡ both_there (compares_as compare) (operand_value (row_view row.now) left.now) (operand_value (row_view row.now) right.now)) }
{
    let Some(left) = side_of(alloc, row, left)? else {
        return Ok(false);
    };
    match side_of(alloc, row, right) {
        Ok(Some(right)) => {
            let so = compares(compare, left.plain(), right.plain());
            drop(left);
            drop(right);
            Ok(so)
        }
        Ok(None) => {
            drop(left);
            Ok(false)
        }
        Err(OutOfMemory) => {
            drop(left);
            Err(OutOfMemory)
        }
    }
}

/// Whether an operand is there and equals one of the literals.
fn is_among(
    alloc: Global,
    row: &[Binding<'_>],
    operand: &Operand,
    literals: &[Literal],
) -> Result<bool, OutOfMemory>
    requires { AreKept row.now }
    ensures { IfOk result (λ answer. answer ≡ there (equals_one literals.now) (operand_value (row_view row.now) operand.now)) }
{
    match side_of(alloc, row, operand)? {
        Some(side) => {
            let so = equals_one(side.plain(), literals);
            drop(side);
            Ok(so)
        }
        None => Ok(false),
    }
}

/// Whether an operand is there, is a number, a text or a truth value, and equals none of the literals.
fn is_not_among(
    alloc: Global,
    row: &[Binding<'_>],
    operand: &Operand,
    literals: &[Literal],
) -> Result<bool, OutOfMemory>
    requires { AreKept row.now }
    ensures { IfOk result (λ answer. answer ≡ there (λ v. is_primitive v && not (equals_one literals.now v)) (operand_value (row_view row.now) operand.now)) }
{
    match side_of(alloc, row, operand)? {
        Some(side) => {
            let so = equals_none(side.plain(), literals);
            drop(side);
            Ok(so)
        }
        None => Ok(false),
    }
}

/// Whether what a path leads to is of a kind.
fn path_is(
    alloc: Global,
    row: &[Binding<'_>],
    kind: Kind,
    path: &[Text],
) -> Result<bool, OutOfMemory>
    requires { AreKept row.now }
    ensures { IfOk result (λ answer. answer ≡ is_of_query_kind kind (path_value (row_view row.now) path.now)) }
{
    match value_at(alloc, row, path)? {
        Some(found) => {
            let so = is_of_kind(kind, Some(found.tree()));
            drop(found);
            Ok(so)
        }
        None => Ok(is_of_kind(kind, None)),
    }
}

/// Whether two operands are texts and the second stands so in the first.
fn operand_is_part(
    alloc: Global,
    row: &[Binding<'_>],
    kind: PartKind,
    whole: &Operand,
    part: &Operand,
) -> Result<bool, OutOfMemory>
    requires { AreKept row.now }
    ensures { IfOk result (λ answer. answer ≡ both_there (is_text_part kind) (operand_value (row_view row.now) whole.now) (operand_value (row_view row.now) part.now)) }
{
    let Some(whole) = side_of(alloc, row, whole)? else {
        return Ok(false);
    };
    match side_of(alloc, row, part) {
        Ok(Some(part)) => {
            let so = is_text_part(kind, whole.plain(), part.plain());
            drop(whole);
            drop(part);
            Ok(so)
        }
        Ok(None) => {
            drop(whole);
            Ok(false)
        }
        Err(OutOfMemory) => {
            drop(whole);
            Err(OutOfMemory)
        }
    }
}
