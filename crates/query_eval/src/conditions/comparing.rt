//! How two values compare.

ghost use Rattle.std.specs.Prelude.{◌≡◌, ◌&&◌, not};
ghost use Rattle.json_tree.specs.View.{view};
ghost use Rattle.graph_steps.specs.Conditions.{literal_value, is_so, is_so_of_truths, same_truth, compares_as, equals_one, is_primitive};
ghost use Rattle.query_eval.specs.conditions.Machinery.Plain.{plain_value, plainly};

use dt_base::Text;
use json_decimal::Decimal;
use json_tree::Tree;
use query_terms::{Compare, Literal};
use std::cmp::Ordering;

/// What comparisons see of a value: a number, a text or a truth value, lent, or that it is none of these.
#[derive(Clone, Copy)]
pub(crate) enum Plain<'a> {
    Number(&'a Decimal),
    Word(&'a Text),
    Truth(bool),
    Other,
}

impl<'a> Plain<'a> {
    /// What comparisons see of a tree.
    #[tactic(auto, using(json_tree::proofs::Views::views))]
    pub(crate) fn of_tree(tree: &'a Tree) -> Plain<'a>
        ensures { plain_value result ≡ plainly (view tree.now) }
    {
        match tree {
            Tree::Number(number) => Plain::Number(number),
            Tree::Text(word) => Plain::Word(word),
            Tree::Bool(truth) => Plain::Truth(*truth),
            Tree::Null | Tree::List(_) | Tree::Members(_) => Plain::Other,
        }
    }

    /// What they see of a literal.
    pub(crate) fn of_literal(literal: &'a Literal) -> Plain<'a>
        ensures { plain_value result ≡ literal_value literal.now }
    {
        match literal {
            Literal::Number(number) => Plain::Number(number),
            Literal::Word(word) => Plain::Word(word),
            Literal::Truth(truth) => Plain::Truth(*truth),
        }
    }
}

/// Whether an order is the one that is asked for.
fn is_so(compare: Compare, order: Ordering) -> bool
    ensures { result ≡ is_so compare order }
{
    match compare {
        Compare::Same => order.is_eq(),
        Compare::Other => !order.is_eq(),
        Compare::Less => order.is_lt(),
        Compare::Greater => order.is_gt(),
        Compare::LessOrSame => !order.is_gt(),
        Compare::GreaterOrSame => !order.is_lt(),
    }
}

/// Whether two truth values compare so, which know `=` and `!=` alone.
fn truths_compare(compare: Compare, left: bool, right: bool) -> bool
    ensures { result ≡ is_so_of_truths compare (same_truth left right) }
{
    match compare {
        Compare::Same => left == right,
        Compare::Other => left != right,
        Compare::Less | Compare::Greater => false,
        Compare::LessOrSame | Compare::GreaterOrSame => false,
    }
}

/// Whether two values compare so: two numbers by their order, two texts by their bytes, and two truth values. Values of
/// two kinds do not, whatever is asked.
pub(crate) fn compares(compare: Compare, left: Plain<'_>, right: Plain<'_>) -> bool
    ensures { result ≡ compares_as compare (plain_value left.entry) (plain_value right.entry) }
{
    match left {
        Plain::Number(left) => match right {
            Plain::Number(right) => is_so(compare, left.order(right)),
            Plain::Word(_) | Plain::Truth(_) | Plain::Other => false,
        },
        Plain::Word(left) => match right {
            Plain::Word(right) => is_so(compare, left.cmp(right)),
            Plain::Number(_) | Plain::Truth(_) | Plain::Other => false,
        },
        Plain::Truth(left) => match right {
            Plain::Truth(right) => truths_compare(compare, left, right),
            Plain::Number(_) | Plain::Word(_) | Plain::Other => false,
        },
        Plain::Other => false,
    }
}

/// Whether a value equals one of the literals.
pub(crate) fn equals_one(value: Plain<'_>, literals: &[Literal]) -> bool
    ensures { result ≡ equals_one literals.now (plain_value value.entry) }
{
    'literals: for literal in literals {
        if compares(Compare::Same, value, Plain::of_literal(literal)) {
            return true;
        }
    }
    false
}

/// Whether a value is a number, a text or a truth value, and equals none of the literals.
pub(crate) fn equals_none(value: Plain<'_>, literals: &[Literal]) -> bool
    ensures { result ≡ (is_primitive (plain_value value.entry) && not (equals_one literals.now (plain_value value.entry))) }
{
    match value {
        Plain::Number(_) | Plain::Word(_) | Plain::Truth(_) => !equals_one(value, literals),
        Plain::Other => false,
    }
}
