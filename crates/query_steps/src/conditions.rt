//! The states of reading a condition.

ghost use Rattle.std.specs.Prelude.{◌≡◌, suc, [], ◌∷◌, ◌++◌, Some, IfOk, OnOk};
ghost use Rattle.query_terms.specs.declared.operand.Operand.TheVariants as operands;
ghost use Rattle.query_terms.specs.declared.tokens.token.Mark.TheVariants as marks;
ghost use Rattle.query_grammar.specs.declared.state.State.TheVariants as states;
ghost use Rattle.query_grammar.specs.declared.state.Goal.TheVariants as goals;
ghost use Rattle.query_grammar.specs.Machinery.Steps.{closed, closed_step, is_mark, when, negating, inside, with_room, path_begun, factor_step, literal_step, takes_literal, operand_step, behind_factor_step, behind_left_step, behind_step, operand_path, path_step, field_step};

use crate::building::{closed, left_chain, term_of, with_either};
use crate::leaving::{let_go, let_terms_go};
use crate::noting::path_noted;
use crate::tests_of_tokens::{is_dot, is_mark, when};
use dt_base::{List, OutOfMemory, Text};
use query_grammar::{Around, Built, Chain, Chains, Goal, Head, Notes, PlacedName, State};
use query_terms::tokens::{Mark, Token, Word};
use query_terms::{Cond, Literal, Operand};
use std::alloc::Global;

/// Counts one NOT more. There are never more than 64.
fn count_not(chain: &mut Chain) -> Result<(), OutOfMemory>
    ensures { OnOk result (chain.new ≡ record chain.old { nots = suc chain.old.nots }) }
{
    match chain.nots.checked_add(1) {
        Some(nots) => {
            chain.nots = nots;
            Ok(())
        }
        None => Err(OutOfMemory),
    }
}

/// The state behind NOT, where one more may be open.
fn behind_not(notes: Notes, around: Around) -> Result<Option<State>, OutOfMemory>
    ensures { IfOk result (λ s. s ≡ with_room around.room (λ room. states.Factor notes (negating around room))) }
{
    let mut around = around;
    if around.room == 0 {
        let_go(notes, around);
        return Ok(None);
    }
    around.room -= 1;
    let Ok(()) = count_not(&mut around.chain) else {
        let_go(notes, around);
        return Err(OutOfMemory);
    };
    Ok(Some(State::Factor(notes, around)))
}

/// The state behind a parenthesis that opens, where one more may be open.
fn behind_open(notes: Notes, around: Around) -> Result<Option<State>, OutOfMemory>
    ensures { IfOk result (λ s. s ≡ with_room around.room (λ room. states.Factor notes (inside around room))) }
{
    if around.room == 0 {
        let_go(notes, around);
        return Ok(None);
    }
    let Around {
        head,
        chain,
        mut chains,
        room,
    } = around;
    let Ok(()) = chains.push(chain) else {
        drop((notes, head, chains));
        return Err(OutOfMemory);
    };
    let chain = Chain {
        either: None,
        both: None,
        nots: 0,
        room: room - 1,
    };
    let around = Around {
        head,
        chain,
        chains,
        room: room - 1,
    };
    Ok(Some(State::Factor(notes, around)))
}

/// The state, where one more parenthesis may be open.
fn with_room(room: u32, state: State) -> Option<State>
    ensures { result ≡ with_room room (λ _. state) }
{
    if room == 0 { None } else { Some(state) }
}

/// The state behind the first name of a path.
fn path_begun(
    alloc: Global,
    notes: Notes,
    around: Around,
    goal: Goal,
    at: u32,
    name: Text,
) -> Result<Option<State>, OutOfMemory>
    ensures { IfOk result (λ s. s ≡ Some (path_begun notes around goal at name)) }
{
    let Ok((notes, path)) = path_noted(alloc, notes, at, name) else {
        drop((around, goal));
        return Err(OutOfMemory);
    };
    Ok(Some(State::Path(notes, around, goal, path)))
}

pub(crate) fn factor(
    alloc: Global,
    notes: Notes,
    around: Around,
    at: u32,
    token: Token,
) -> Result<Option<State>, OutOfMemory>
    ensures { IfOk result (λ s. s ≡ factor_step notes around at token) }
{
    match token {
        Token::Name(Word::Not, name) => {
            drop(name);
            behind_not(notes, around)
        }
        Token::Mark(Mark::Open) => {
            drop(token);
            behind_open(notes, around)
        }
        Token::Name(Word::Is(kind), name) => {
            drop(name);
            let room = around.room;
            Ok(with_room(room, State::FunctionOpen(notes, around, Goal::Is(kind))))
        }
        Token::Name(Word::Part(kind), name) => {
            drop(name);
            let room = around.room;
            Ok(with_room(room, State::FunctionOpen(notes, around, Goal::First(kind))))
        }
        Token::Name(Word::OfModel, name) => {
            let room = around.room;
            Ok(with_room(
                room,
                State::ModelOpen(notes, around, PlacedName { at, name }),
            ))
        }
        Token::Name(Word::Alias, name) => path_begun(alloc, notes, around, Goal::Left, at, name),
        Token::Name(Word::True, name) => {
            drop(name);
            Ok(Some(left_literal(notes, around, Literal::Truth(true))))
        }
        Token::Name(Word::False, name) => {
            drop(name);
            Ok(Some(left_literal(notes, around, Literal::Truth(false))))
        }
        Token::Number(number) => Ok(Some(left_literal(notes, around, Literal::Number(number)))),
        Token::Text(text, model) => {
            drop(model);
            Ok(Some(left_literal(notes, around, Literal::Word(text))))
        }
        other => {
            let_go(notes, around);
            drop(other);
            Ok(None)
        }
    }
}

fn left_literal(notes: Notes, around: Around, literal: Literal) -> State
    ensures { result ≡ states.Behind notes around goals.Left (operands.Value literal) }
{
    State::Behind(notes, around, Goal::Left, Operand::Value(literal))
}

fn takes_literal(goal: &Goal) -> bool
    ensures { result ≡ takes_literal goal.now }
{
    match goal {
        Goal::Is(_) => false,
        _ => true,
    }
}

fn literal(notes: Notes, around: Around, goal: Goal, literal: Literal) -> Option<State>
    ensures { result ≡ literal_step notes around goal literal }
{
    let takes = takes_literal(&goal);
    when(
        takes,
        State::Behind(notes, around, goal, Operand::Value(literal)),
    )
}

pub(crate) fn operand(
    alloc: Global,
    notes: Notes,
    around: Around,
    goal: Goal,
    at: u32,
    token: Token,
) -> Result<Option<State>, OutOfMemory>
    ensures { IfOk result (λ s. s ≡ operand_step notes around goal at token) }
{
    match token {
        Token::Name(Word::Alias, name) => path_begun(alloc, notes, around, goal, at, name),
        Token::Name(Word::True, name) => {
            drop(name);
            Ok(literal(notes, around, goal, Literal::Truth(true)))
        }
        Token::Name(Word::False, name) => {
            drop(name);
            Ok(literal(notes, around, goal, Literal::Truth(false)))
        }
        Token::Number(number) => Ok(literal(notes, around, goal, Literal::Number(number))),
        Token::Text(text, model) => {
            drop(model);
            Ok(literal(notes, around, goal, Literal::Word(text)))
        }
        other => {
            let_go(notes, around);
            drop((goal, other));
            Ok(None)
        }
    }
}

pub(crate) fn behind_factor(
    alloc: Global,
    notes: Notes,
    head: Head,
    before: Option<Built>,
    built: Built,
    chains: Chains,
    room: u32,
    token: &Token,
) -> Result<Option<State>, OutOfMemory>
    ensures { IfOk result (λ s. s ≡ behind_factor_step notes head before built chains room token.now) }
{
    match token {
        Token::Name(Word::And, _) => {
            let chain = Chain {
                either: before,
                both: Some(built),
                nots: 0,
                room,
            };
            Ok(Some(State::Factor(
                notes,
                Around {
                    head,
                    chain,
                    chains,
                    room,
                },
            )))
        }
        Token::Name(Word::Or, _) => {
            let Ok(either) = with_either(alloc, before, built) else {
                drop((notes, head, chains));
                return Err(OutOfMemory);
            };
            let chain = Chain {
                either: Some(either),
                both: None,
                nots: 0,
                room,
            };
            Ok(Some(State::Factor(
                notes,
                Around {
                    head,
                    chain,
                    chains,
                    room,
                },
            )))
        }
        Token::Mark(Mark::Close) => {
            let Ok(whole) = with_either(alloc, before, built) else {
                drop((notes, head, chains));
                return Err(OutOfMemory);
            };
            left_chain(alloc, notes, head, chains, whole)
        }
        _ => {
            let_terms_go(before, built);
            drop((notes, head, chains));
            Ok(None)
        }
    }
}

fn behind_left(notes: Notes, around: Around, operand: Operand, token: &Token) -> Option<State>
    ensures { result ≡ behind_left_step notes around operand token.now }
{
    match token {
        Token::Mark(Mark::Compare(compare)) => {
            Some(State::Operand(notes, around, Goal::Right(operand, *compare)))
        }
        Token::Name(Word::In, _) => Some(State::ListOpen(notes, around, operand, true)),
        Token::Name(Word::Nin, _) => Some(State::ListOpen(notes, around, operand, false)),
        _ => {
            let_go(notes, around);
            drop(operand);
            None
        }
    }
}

/// What follows a whole factor.
fn behind_closed(
    alloc: Global,
    notes: Notes,
    around: Around,
    factor: Built,
    token: &Token,
) -> Result<Option<State>, OutOfMemory>
    ensures { IfOk result (λ s. s ≡ closed_step notes around factor token.now) }
{
    let Around {
        head,
        chain,
        chains,
        room: _,
    } = around;
    let Chain {
        either,
        both,
        nots,
        room,
    } = chain;
    let Ok(term) = term_of(alloc, both, nots, factor) else {
        drop((notes, head, either, chains));
        return Err(OutOfMemory);
    };
    behind_factor(alloc, notes, head, either, term, chains, room, token)
}

/// The path of an operand, and none for a literal.
fn path_of(alloc: Global, operand: Operand) -> List<Text>
    ensures { result ≡ operand_path operand }
{
    match operand {
        Operand::Path(path) => path,
        Operand::Value(literal) => {
            drop(literal);
            List::new(alloc)
        }
    }
}

pub(crate) fn behind(
    alloc: Global,
    notes: Notes,
    around: Around,
    goal: Goal,
    operand: Operand,
    token: &Token,
) -> Result<Option<State>, OutOfMemory>
    ensures { IfOk result (λ s. s ≡ behind_step notes around goal operand token.now) }
{
    match goal {
        Goal::Left => {
            drop(goal);
            Ok(behind_left(notes, around, operand, token))
        }
        Goal::Right(left, compare) => {
            let cond = Cond::Compare(left, compare, operand);
            behind_closed(alloc, notes, around, Built { cond }, token)
        }
        Goal::Is(kind) => {
            drop(goal);
            let cond = Cond::Is(kind, path_of(alloc, operand));
            behind_close(alloc, notes, around, Built { cond }, token)
        }
        Goal::First(kind) => {
            drop(goal);
            let passes = is_mark(Mark::Comma, token);
            Ok(when(
                passes,
                State::Operand(notes, around, Goal::Second(kind, operand)),
            ))
        }
        Goal::Second(kind, first) => {
            let cond = Cond::Part(kind, first, operand);
            behind_close(alloc, notes, around, Built { cond }, token)
        }
    }
}

/// The state behind the parenthesis of a function.
pub(crate) fn behind_close(
    alloc: Global,
    notes: Notes,
    around: Around,
    factor: Built,
    token: &Token,
) -> Result<Option<State>, OutOfMemory>
    ensures { IfOk result (λ s. s ≡ when (is_mark marks.Close token.now) (closed notes around factor)) }
{
    if is_mark(Mark::Close, token) {
        closed(alloc, notes, around, factor)
    } else {
        let_go(notes, around);
        drop(factor);
        Ok(None)
    }
}

pub(crate) fn path(
    alloc: Global,
    notes: Notes,
    around: Around,
    goal: Goal,
    path: List<Text>,
    token: &Token,
) -> Result<Option<State>, OutOfMemory>
    ensures { IfOk result (λ s. s ≡ path_step notes around goal path token.now) }
{
    if is_dot(token) {
        return Ok(Some(State::Field(notes, around, goal, path)));
    }
    behind(alloc, notes, around, goal, Operand::Path(path), token)
}

/// The state behind one name more of a path.
fn path_longer(
    notes: Notes,
    around: Around,
    goal: Goal,
    path: List<Text>,
    name: Text,
) -> Result<Option<State>, OutOfMemory>
    ensures { IfOk result (λ s. s ≡ Some (states.Path notes around goal (path ++ name ∷ []))) }
{
    let mut path = path;
    let Ok(()) = path.push(name) else {
        let_go(notes, around);
        drop((goal, path));
        return Err(OutOfMemory);
    };
    Ok(Some(State::Path(notes, around, goal, path)))
}

pub(crate) fn field(
    notes: Notes,
    around: Around,
    goal: Goal,
    path: List<Text>,
    token: Token,
) -> Result<Option<State>, OutOfMemory>
    ensures { IfOk result (λ s. s ≡ field_step notes around goal path token) }
{
    match token {
        Token::Name(_, name) => path_longer(notes, around, goal, path, name),
        other => {
            let_go(notes, around);
            drop((goal, path, other));
            Ok(None)
        }
    }
}
