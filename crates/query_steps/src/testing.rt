//! The states of reading lists of literals and tests for models.

ghost use Rattle.std.specs.Prelude.{◌≡◌, Some, None, IfOk};
ghost use Rattle.query_grammar.specs.declared.names.Referent.TheVariants as referents;
ghost use Rattle.query_grammar.specs.declared.state.State.TheVariants as states;
ghost use Rattle.query_grammar.specs.Machinery.Steps.{noting_use, one_literal_more, list_item_step, behind_list_item_step, model_start_step, model_text_step, behind_model_step, exact_step};

use crate::building::{closed, membership};
use crate::leaving::let_go;
use crate::noting::use_noted;
use crate::tests_of_tokens::when;
use dt_base::names::Dtmi;
use dt_base::{List, OutOfMemory, Text};
use query_grammar::{Around, Built, Notes, PlacedName, Referent, State};
use query_terms::tokens::{Mark, Token, Word, same_letters};
use query_terms::{Cond, Literal, Operand};
use std::alloc::Global;

/// The state behind one literal more.
fn one_literal_more(
    notes: Notes,
    around: Around,
    operand: Operand,
    within: bool,
    literals: List<Literal>,
    literal: Literal,
) -> Result<Option<State>, OutOfMemory>
    ensures { IfOk result (λ s. s ≡ Some (one_literal_more notes around operand within literals literal)) }
{
    let mut literals = literals;
    let Ok(()) = literals.push(literal) else {
        let_go(notes, around);
        drop((operand, literals));
        return Err(OutOfMemory);
    };
    Ok(Some(State::BehindListItem(notes, around, operand, within, literals)))
}

pub(crate) fn list_item(
    notes: Notes,
    around: Around,
    operand: Operand,
    within: bool,
    literals: List<Literal>,
    token: Token,
) -> Result<Option<State>, OutOfMemory>
    ensures { IfOk result (λ s. s ≡ list_item_step notes around operand within literals token) }
{
    match token {
        Token::Name(Word::True, name) => {
            drop(name);
            one_literal_more(
                notes,
                around,
                operand,
                within,
                literals,
                Literal::Truth(true),
            )
        }
        Token::Name(Word::False, name) => {
            drop(name);
            one_literal_more(
                notes,
                around,
                operand,
                within,
                literals,
                Literal::Truth(false),
            )
        }
        Token::Number(number) => {
            one_literal_more(
                notes,
                around,
                operand,
                within,
                literals,
                Literal::Number(number),
            )
        }
        Token::Text(text, model) => {
            drop(model);
            one_literal_more(
                notes,
                around,
                operand,
                within,
                literals,
                Literal::Word(text),
            )
        }
        other => {
            let_go(notes, around);
            drop((operand, literals, other));
            Ok(None)
        }
    }
}

pub(crate) fn behind_list_item(
    alloc: Global,
    notes: Notes,
    around: Around,
    operand: Operand,
    within: bool,
    literals: List<Literal>,
    token: &Token,
) -> Result<Option<State>, OutOfMemory>
    ensures { IfOk result (λ s. s ≡ behind_list_item_step notes around operand within literals token.now) }
{
    match token {
        Token::Mark(Mark::Comma) => Ok(Some(State::ListItem(
            notes, around, operand, within, literals,
        ))),
        Token::Mark(Mark::CloseList) => {
            closed(alloc, notes, around, membership(within, operand, literals))
        }
        _ => {
            let_go(notes, around);
            drop((operand, literals));
            Ok(None)
        }
    }
}

/// The state behind the alias of a test for a model.
fn model_named(
    alloc: Global,
    notes: Notes,
    around: Around,
    at: u32,
    name: Text,
) -> Result<Option<State>, OutOfMemory>
    ensures { IfOk result (λ s. s ≡ Some (states.ModelComma (noting_use notes (at, name) referents.Model) around name)) }
{
    let Ok((notes, twin)) = use_noted(alloc, notes, at, name, Referent::Model) else {
        drop(around);
        return Err(OutOfMemory);
    };
    Ok(Some(State::ModelComma(notes, around, twin)))
}

/// The state behind the identifier of a test for a model without an alias, whose name stands at the spot.
fn model_bare(
    notes: Notes,
    around: Around,
    spot: PlacedName,
    model: Dtmi,
) -> Result<Option<State>, OutOfMemory>
    ensures { IfOk result (λ s. s ≡ Some (states.BehindModel (noting_use notes spot referents.Bare) around None model)) }
{
    let Ok(notes) = notes.with_use(spot, Referent::Bare) else {
        drop((around, model));
        return Err(OutOfMemory);
    };
    Ok(Some(State::BehindModel(notes, around, None, model)))
}

pub(crate) fn model_start(
    alloc: Global,
    notes: Notes,
    around: Around,
    spot: PlacedName,
    at: u32,
    token: Token,
) -> Result<Option<State>, OutOfMemory>
    ensures { IfOk result (λ s. s ≡ model_start_step notes around spot at token) }
{
    match token {
        Token::Name(Word::Alias, name) => {
            drop(spot);
            model_named(alloc, notes, around, at, name)
        }
        Token::Text(text, model) => {
            drop(text);
            match model {
                Some(model) => model_bare(notes, around, spot, model),
                None => {
                    let_go(notes, around);
                    drop(spot);
                    Ok(None)
                }
            }
        }
        other => {
            let_go(notes, around);
            drop((spot, other));
            Ok(None)
        }
    }
}

pub(crate) fn model_text(
    notes: Notes,
    around: Around,
    twin: Option<Text>,
    token: Token,
) -> Option<State>
    ensures { result ≡ model_text_step notes around twin token }
{
    match token {
        Token::Text(text, model) => {
            drop(text);
            match model {
                Some(model) => Some(State::BehindModel(notes, around, twin, model)),
                None => {
                    let_go(notes, around);
                    drop(twin);
                    None
                }
            }
        }
        other => {
            let_go(notes, around);
            drop((twin, other));
            None
        }
    }
}

pub(crate) fn behind_model(
    alloc: Global,
    notes: Notes,
    around: Around,
    twin: Option<Text>,
    model: Dtmi,
    token: &Token,
) -> Result<Option<State>, OutOfMemory>
    ensures { IfOk result (λ s. s ≡ behind_model_step notes around twin model token.now) }
{
    match token {
        Token::Mark(Mark::Comma) => Ok(Some(State::Exact(notes, around, twin, model))),
        Token::Mark(Mark::Close) => {
            let cond = Cond::OfModel {
                twin,
                model,
                exact: false,
            };
            closed(alloc, notes, around, Built { cond })
        }
        _ => {
            let_go(notes, around);
            drop((twin, model));
            Ok(None)
        }
    }
}

pub(crate) fn exact(
    notes: Notes,
    around: Around,
    twin: Option<Text>,
    model: Dtmi,
    token: &Token,
) -> Option<State>
    ensures { result ≡ exact_step notes around twin model token.now }
{
    match token {
        Token::Name(Word::Alias, name) => {
            let passes = same_letters(name.as_str(), "exact");
            when(passes, State::ModelClose(notes, around, twin, model))
        }
        _ => {
            let_go(notes, around);
            drop((twin, model));
            None
        }
    }
}
