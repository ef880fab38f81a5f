//! What stands on a side of a comparison.

ghost use Rattle.std.specs.Prelude.{◌≡◌, IfOk};
ghost use Rattle.std.specs.Option.{option_map};
ghost use Rattle.graph_steps.specs.Conditions.{operand_value};
ghost use Rattle.query_eval.specs.values.Rows.{row_view, AreKept};
ghost use Rattle.query_eval.specs.conditions.Machinery.Plain.{plain_value, plainly};
ghost use Rattle.query_eval.specs.conditions.Machinery.Sides.{side_value};

use crate::conditions::comparing::Plain;
use crate::values::{Binding, Found, value_at};
use dt_base::OutOfMemory;
use query_terms::{Literal, Operand};
use std::alloc::Global;

/// A value that a path led to, or one that the query writes out.
#[derive(Drop)]
pub(crate) enum Side<'a> {
    Found(Found<'a>),
    Written(&'a Literal),
}

impl<'a> Side<'a> {
    /// What comparisons see of it.
    pub(crate) fn plain(&self) -> Plain<'_>
        ensures { plain_value result ≡ plainly (side_value self.now) }
    {
        match self {
            Side::Found(found) => Plain::of_tree(found.tree()),
            Side::Written(literal) => Plain::of_literal(literal),
        }
    }
}

/// The value of an operand in a row, or `None` where its path leads to none. Fails only for want of memory.
pub(crate) fn side_of<'a>(
    alloc: Global,
    row: &[Binding<'a>],
    operand: &'a Operand,
) -> Result<Option<Side<'a>>, OutOfMemory>
    requires { AreKept row.now }
    ensures { IfOk result (λ side. option_map side_value side ≡ operand_value (row_view row.now) operand.now) }
{
    match operand {
        Operand::Path(path) => match value_at(alloc, row, path.as_slice())? {
            Some(found) => Ok(Some(Side::Found(found))),
            None => Ok(None),
        },
        Operand::Value(literal) => Ok(Some(Side::Written(literal))),
    }
}
