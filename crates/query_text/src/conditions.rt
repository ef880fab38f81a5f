//! Conditions.

ghost use Rattle.std.specs.Prelude.{◌≡◌, ℕ, ◌+◌, ◌<◌, ◌++◌, ◌∷◌, [], false, string_bytes, codes, OnOk};
ghost use Rattle.query_terms.specs.Conditions.{condition, of_model};
ghost use Rattle.query_terms.specs.declared.tokens.token.Mark.TheVariants as marks;
ghost use Rattle.query_terms.specs.Machinery.Weights.{has_parts};
ghost use Rattle.query_terms.specs.tokens.Spellings.{mark_bytes};
ghost use Rattle.query_text.specs.Printed.{model_text, kind_text, part_text, twin_argument, exact_text, condition_text};
ghost use Rattle.query_text.specs.Machinery.Pieces.{piece_text, piece_load, pending, load};

use crate::escapes::push_quoted;
use crate::operands::{push_list, push_operand, push_path};
use crate::pieces::{Piece, put_cond, put_parts};
use dt_base::Text;
use dt_base::names::Dtmi;
use query_terms::{Compare, Cond, Kind, PartKind};
use std::alloc::{AllocError, Global};

/// How a comparison is written.
fn compare_text(compare: Compare) -> &'static str
    ensures { result.now ≡ mark_bytes (marks.Compare compare) }
{
    match compare {
        Compare::Same => "=",
        Compare::Other => "!=",
        Compare::Less => "<",
        Compare::Greater => ">",
        Compare::LessOrSame => "<=",
        Compare::GreaterOrSame => ">=",
    }
}

/// The name of the function that tests for a kind of value.
fn kind_text(kind: Kind) -> &'static str
    ensures { result.now ≡ kind_text kind }
{
    match kind {
        Kind::Defined => "IS_DEFINED",
        Kind::Null => "IS_NULL",
        Kind::Number => "IS_NUMBER",
        Kind::Word => "IS_STRING",
        Kind::Truth => "IS_BOOL",
        Kind::Object => "IS_OBJECT",
        Kind::Primitive => "IS_PRIMITIVE",
    }
}

/// The name of the function that tests a text for a part.
fn part_text(kind: PartKind) -> &'static str
    ensures { result.now ≡ part_text kind }
{
    match kind {
        PartKind::Starts => "STARTSWITH",
        PartKind::Ends => "ENDSWITH",
        PartKind::Contains => "CONTAINS",
    }
}

fn push_twin(out: &mut String, twin: &Option<Text>) -> Result<(), AllocError>
    ensures { OnOk result (string_bytes out.new ≡ string_bytes out.old ++ twin_argument twin.now) }
{
    match twin {
        Some(alias) => {
            out.push_str(alias.as_str())?;
            out.push(',')
        }
        None => Ok(()),
    }
}

/// Appends the identifier of a model in quotes.
fn push_identifier(out: &mut String, model: &Dtmi) -> Result<(), AllocError>
    ensures { OnOk result (string_bytes out.new ≡ string_bytes out.old ++ model_text model.now) }
{
    push_quoted(out, model.as_str())
}

/// Appends what stands behind the identifier of a model.
fn push_model_end(out: &mut String, exact: bool) -> Result<(), AllocError>
    ensures { OnOk result (string_bytes out.new ≡ string_bytes out.old ++ (exact_text exact ++ 41 ∷ [])) }
{
    if exact {
        out.push_str(",exact)")
    } else {
        out.push_str(")")
    }
}

/// Appends a test for a model.
fn push_model(
    out: &mut String,
    twin: &Option<Text>,
    model: &Dtmi,
    exact: bool,
) -> Result<(), AllocError>
    ensures { OnOk result (string_bytes out.new ≡ string_bytes out.old ++ condition_text 0 (of_model twin.now model.now exact)) }
{
    out.push_str("IS_OF_MODEL(")?;
    push_twin(out, twin)?;
    push_identifier(out, model)?;
    push_model_end(out, exact)
}

/// Appends a condition without parts.
fn push_test(alloc: Global, out: &mut String, cond: &Cond) -> Result<(), AllocError>
    requires { has_parts cond.now ≡ false }
    ensures { OnOk result ((least : ℕ) → string_bytes out.new ≡ string_bytes out.old ++ condition_text least (condition cond.now)) }
{
    match cond {
        Cond::Or(_, _) | Cond::And(_, _) | Cond::Not(_) => unreachable!(),
        Cond::Compare(left, compare, right) => {
            push_operand(alloc, out, left)?;
            out.push_str(compare_text(*compare))?;
            push_operand(alloc, out, right)
        }
        Cond::Among(operand, literals) => {
            push_operand(alloc, out, operand)?;
            out.push_str(" IN ")?;
            push_list(alloc, out, literals.as_slice())
        }
        Cond::NotAmong(operand, literals) => {
            push_operand(alloc, out, operand)?;
            out.push_str(" NIN ")?;
            push_list(alloc, out, literals.as_slice())
        }
        Cond::Is(kind, path) => {
            out.push_str(kind_text(*kind))?;
            out.push('(')?;
            push_path(out, path.as_slice())?;
            out.push(')')
        }
        Cond::Part(kind, whole, part) => {
            out.push_str(part_text(*kind))?;
            out.push('(')?;
            push_operand(alloc, out, whole)?;
            out.push(',')?;
            push_operand(alloc, out, part)?;
            out.push(')')
        }
        Cond::OfModel { twin, model, exact } => push_model(out, twin, model, *exact),
    }
}

/// Appends a piece, or puts what it consists of in front of what is still to be printed.
fn push_piece<'a>(
    alloc: Global,
    out: &mut String,
    pieces: &mut Vec<Piece<'a>>,
    piece: Piece<'a>,
) -> Result<(), AllocError>
    ensures pending { OnOk result (string_bytes out.new ++ pending pieces.new.items ≡ string_bytes out.old ++ (piece_text piece.entry ++ pending pieces.old.items)) }
    ensures load { OnOk result (load pieces.new.items < load pieces.old.items + piece_load piece.entry) }
{
    match piece {
        Piece::Words(words) => out.push_str(words),
        Piece::Whole(cond, least) => {
            if put_parts(pieces, cond, least)? {
                return Ok(());
            }
            push_test(alloc, out, cond)
        }
    }
}

/// Appends a condition where only what binds at least so strongly stands without parentheses. It takes no recursion: a
/// chain of a thousand ANDs is a thousand conditions deep.
pub(crate) fn push_condition(
    alloc: Global,
    out: &mut String,
    cond: &Cond,
    least: u8,
) -> Result<(), AllocError>
    ensures { OnOk result (string_bytes out.new ≡ string_bytes out.old ++ condition_text least (condition cond.now)) }
{
    let mut pieces = Vec::new(alloc);
    put_cond(&mut pieces, cond, least)?;
    'pieces: while let Some(piece) = pieces.pop() {
        push_piece(alloc, out, &mut pieces, piece)?;
    }
    Ok(())
}
