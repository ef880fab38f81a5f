//! What is still to be printed of a condition.

ghost use Rattle.std.specs.Prelude.{◌≡◌, ◌≤◌, ◌<◌, ◌+◌, ◌*◌, ◌^◌, ◌++◌, [], if◌then◌else◌, IfOk, OnOk};
ghost use Rattle.query_terms.specs.Conditions.{condition};
ghost use Rattle.query_terms.specs.Machinery.Weights.{weight, has_parts};
ghost use Rattle.query_text.specs.Printed.{condition_text, in_parentheses};
ghost use Rattle.query_text.specs.Machinery.Pieces.{pending, load};

use query_terms::Cond;
use std::alloc::AllocError;

/// A piece of what is still to be printed.
#[derive(Drop)]
pub(crate) enum Piece<'a> {
    Words(&'static str),
    /// A condition, where only what binds at least so strongly stands without parentheses.
    Whole(&'a Cond, u8),
}

/// Puts words in front of what is still to be printed, where they are wanted.
#[tactic(auto, using(crate::proofs::Waiting::pending_push, crate::proofs::Waiting::load_push))]
fn put_words<'a>(
    pieces: &mut Vec<Piece<'a>>,
    wanted: bool,
    words: &'static str,
) -> Result<(), AllocError>
    ensures pending { OnOk result (pending pieces.new.items ≡ (if wanted then words.now else []) ++ pending pieces.old.items) }
    ensures load { OnOk result (load pieces.new.items ≤ load pieces.old.items + 1) }
{
    if wanted {
        pieces.push(Piece::Words(words))?;
    }
    Ok(())
}

/// Puts a condition in front of what is still to be printed.
#[tactic(auto, using(crate::proofs::Waiting::pending_push, crate::proofs::Waiting::load_push))]
pub(crate) fn put_cond<'a>(
    pieces: &mut Vec<Piece<'a>>,
    cond: &'a Cond,
    least: u8,
) -> Result<(), AllocError>
    ensures pending { OnOk result (pending pieces.new.items ≡ condition_text least (condition cond.now) ++ pending pieces.old.items) }
    ensures load { OnOk result (load pieces.new.items ≡ load pieces.old.items + 4 * weight cond.now) }
{
    pieces.push(Piece::Whole(cond, least))?;
    Ok(())
}

/// Puts two conditions with words between them in front of what is still to be printed, in parentheses where they are
/// wanted.
fn put_pair<'a>(
    pieces: &mut Vec<Piece<'a>>,
    wanted: bool,
    left: &'a Cond,
    words: &'static str,
    right: &'a Cond,
    least: u8,
) -> Result<(), AllocError>
    requires { least + 1 < 2 ^ 8 }
    ensures pending { OnOk result (pending pieces.new.items ≡ in_parentheses wanted (condition_text least (condition left.now) ++ (words.now ++ condition_text (least + 1) (condition right.now))) ++ pending pieces.old.items) }
    ensures load { OnOk result (load pieces.new.items ≤ load pieces.old.items + (4 * weight left.now + 4 * weight right.now + 3)) }
{
    put_words(pieces, wanted, ")")?;
    put_cond(pieces, right, least + 1)?;
    put_words(pieces, true, words)?;
    put_cond(pieces, left, least)?;
    put_words(pieces, wanted, "(")
}

/// Puts the parts of a condition, and what stands between them, in front of what is still to be printed, where it has
/// parts.
pub(crate) fn put_parts<'a>(
    pieces: &mut Vec<Piece<'a>>,
    cond: &'a Cond,
    least: u8,
) -> Result<bool, AllocError>
    ensures parts { IfOk result (λ parts. parts ≡ has_parts cond.now) }
    ensures pending { IfOk result (λ parts. pending pieces.new.items ≡ (if parts then condition_text least (condition cond.now) else []) ++ pending pieces.old.items) }
    ensures load { OnOk result (load pieces.new.items < load pieces.old.items + 4 * weight cond.now) }
{
    match cond {
        Cond::Or(left, right) => {
            put_pair(pieces, 0 < least, left, " OR ", right, 0)?;
            Ok(true)
        }
        Cond::And(left, right) => {
            put_pair(pieces, 1 < least, left, " AND ", right, 1)?;
            Ok(true)
        }
        Cond::Not(inner) => {
            put_cond(pieces, inner, 2)?;
            put_words(pieces, true, "NOT ")?;
            Ok(true)
        }
        _ => Ok(false),
    }
}
