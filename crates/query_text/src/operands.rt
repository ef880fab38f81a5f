//! Paths and literals.

ghost use Rattle.std.specs.Prelude.{◌≡◌, ◌++◌, string_bytes, codes, OnOk};
ghost use Rattle.json_decimal.specs.Decimals.{number_of};
ghost use Rattle.json_decimal.specs.Printing.{text_of};
ghost use Rattle.query_text.specs.Printed.{path_text, truth_text, literal_text, operand_text, list_text, separated};
ghost use Rattle.query_text.specs.Machinery.Parts.{mark_before};

use crate::escapes::push_quoted;
use dt_base::Text;
use json_decimal::Decimal;
use query_terms::{Literal, Operand};
use std::alloc::{AllocError, Global};

/// Appends what stands between the texts of a list, unless this is the first position.
pub(crate) fn push_mark(out: &mut String, position: usize, mark: &str) -> Result<(), AllocError>
    ensures { OnOk result (string_bytes out.new ≡ string_bytes out.old ++ mark_before mark.now position) }
{
    if position > 0 {
        out.push_str(mark)?;
    }
    Ok(())
}

/// Appends names with points between them.
pub(crate) fn push_path(out: &mut String, path: &[Text]) -> Result<(), AllocError>
    ensures { OnOk result (string_bytes out.new ≡ string_bytes out.old ++ path_text path.now) }
{
    'names: for (position, name) in path.iter().enumerate() {
        push_mark(out, position, ".")?;
        out.push_str(name.as_str())?;
    }
    Ok(())
}

fn push_number(alloc: Global, out: &mut String, number: &Decimal) -> Result<(), AllocError>
    ensures { OnOk result (string_bytes out.new ≡ string_bytes out.old ++ text_of (number_of number.now)) }
{
    out.push_str(number.print(alloc)?.as_str())
}

fn push_literal(alloc: Global, out: &mut String, literal: &Literal) -> Result<(), AllocError>
    ensures { OnOk result (string_bytes out.new ≡ string_bytes out.old ++ literal_text literal.now) }
{
    match literal {
        Literal::Number(number) => push_number(alloc, out, number),
        Literal::Word(word) => push_quoted(out, word.as_str()),
        Literal::Truth(true) => out.push_str("TRUE"),
        Literal::Truth(false) => out.push_str("FALSE"),
    }
}

fn push_literals(alloc: Global, out: &mut String, literals: &[Literal]) -> Result<(), AllocError>
    ensures { OnOk result (string_bytes out.new ≡ string_bytes out.old ++ separated (codes ",") literal_text literals.now) }
{
    'literals: for (position, literal) in literals.iter().enumerate() {
        push_mark(out, position, ",")?;
        push_literal(alloc, out, literal)?;
    }
    Ok(())
}

/// Appends literals in brackets.
pub(crate) fn push_list(
    alloc: Global,
    out: &mut String,
    literals: &[Literal],
) -> Result<(), AllocError>
    ensures { OnOk result (string_bytes out.new ≡ string_bytes out.old ++ list_text literals.now) }
{
    out.push('[')?;
    push_literals(alloc, out, literals)?;
    out.push(']')
}

pub(crate) fn push_operand(
    alloc: Global,
    out: &mut String,
    operand: &Operand,
) -> Result<(), AllocError>
    ensures { OnOk result (string_bytes out.new ≡ string_bytes out.old ++ operand_text operand.now) }
{
    match operand {
        Operand::Path(path) => push_path(out, path.as_slice()),
        Operand::Value(literal) => push_literal(alloc, out, literal),
    }
}
