//! One token more.

ghost use Rattle.std.specs.Prelude.{◌≡◌, IfOk};
ghost use Rattle.query_grammar.specs.Machinery.Steps.{step};
ghost use Rattle.query_steps.specs.Machinery.Stages.{stage};
ghost use Rattle.query_steps.specs.declared.stage.Stage.TheVariants as stages;

use crate::conditions::{behind, behind_close, behind_factor, factor, field, operand, path};
use crate::selecting::{
    behind_item, behind_top, item_as, item_field, item_path, item_start, select, start, top_number,
};
use crate::sourcing::{
    behind_relationships, behind_twins, join_alias, join_name, join_source, join_target,
    relationships_alias, source, twins_alias,
};
use crate::stage::{Stage, stage_of};
use crate::testing::{behind_list_item, behind_model, exact, list_item, model_start, model_text};
use crate::tests_of_tokens::{when_mark, when_word};
use dt_base::{List, OutOfMemory};
use query_grammar::{Built, Notes, State};
use query_terms::tokens::{Mark, Token, Word};
use query_terms::{Cond, Projection};
use std::alloc::Global;

/// The state behind one token more of what is selected, up to the first item.
#[inline(never)]
fn in_selection(
    alloc: Global,
    state: State,
    at: u32,
    token: Token,
) -> Result<Option<State>, OutOfMemory>
    requires { stage state ≡ stages.Selecting }
    ensures { IfOk result (λ s. s ≡ step state at token) }
{
    match state {
        State::Start => {
            let next = start(&token);
            drop(token);
            Ok(next)
        }
        State::Select => select(alloc, at, token),
        State::CountOpen => Ok(when_mark(Mark::Open, token, State::CountClose)),
        State::CountClose => {
            let next = State::BehindSelect(Notes::new(alloc), Projection::Count);
            Ok(when_mark(Mark::Close, token, next))
        }
        State::TopOpen => Ok(when_mark(Mark::Open, token, State::TopNumber)),
        State::TopNumber => {
            let next = top_number(&token);
            drop(token);
            Ok(next)
        }
        State::TopClose(size) => Ok(when_mark(Mark::Close, token, State::BehindTop(size))),
        State::BehindTop(size) => behind_top(alloc, size, at, token),
        State::BehindSelect(notes, select) => {
            Ok(when_word(Word::From, token, State::Source(notes, select)))
        }
        _ => unreachable!(),
    }
}

/// The state behind one token more of the items.
#[inline(never)]
fn in_items(
    alloc: Global,
    state: State,
    at: u32,
    token: Token,
) -> Result<Option<State>, OutOfMemory>
    requires { stage state ≡ stages.Items }
    ensures { IfOk result (λ s. s ≡ step state at token) }
{
    match state {
        State::ItemStart(notes, top, items) => item_start(alloc, notes, top, items, at, token),
        State::ItemPath(notes, top, items, path, last) => {
            let next = item_path(alloc, notes, top, items, path, last, &token);
            drop(token);
            next
        }
        State::ItemField(notes, top, items, path) => {
            item_field(alloc, notes, top, items, path, at, token)
        }
        State::ItemAs(notes, top, items, path) => item_as(
            alloc, notes, top, items, path, at, token,
        ),
        State::BehindItem(notes, top, items) => {
            let next = behind_item(notes, top, items, &token);
            drop(token);
            Ok(next)
        }
        _ => unreachable!(),
    }
}

/// The state behind one token more of where rows come from.
#[inline(never)]
fn in_source(
    alloc: Global,
    state: State,
    at: u32,
    token: Token,
) -> Result<Option<State>, OutOfMemory>
    requires { stage state ≡ stages.Sourcing }
    ensures { IfOk result (λ s. s ≡ step state at token) }
{
    match state {
        State::Source(notes, select) => {
            let next = source(notes, select, &token);
            drop(token);
            Ok(next)
        }
        State::RelationshipsAlias(notes, select) => {
            relationships_alias(alloc, notes, select, at, token)
        }
        State::BehindRelationships(notes, head) => {
            let next = behind_relationships(alloc, notes, head, &token);
            drop(token);
            Ok(next)
        }
        State::TwinsAlias(notes, select) => twins_alias(alloc, notes, select, at, token),
        State::BehindTwins(notes, head) => {
            let next = behind_twins(alloc, notes, head, &token);
            drop(token);
            Ok(next)
        }
        _ => unreachable!(),
    }
}

/// The state behind one token more of the joins.
#[inline(never)]
fn in_joins(
    alloc: Global,
    state: State,
    at: u32,
    token: Token,
) -> Result<Option<State>, OutOfMemory>
    requires { stage state ≡ stages.Joining }
    ensures { IfOk result (λ s. s ≡ step state at token) }
{
    match state {
        State::JoinTarget(notes, head) => join_target(alloc, notes, head, at, token),
        State::JoinRelated(notes, head, target) => {
            Ok(when_word(Word::Related, token, State::JoinSource(notes, head, target)))
        }
        State::JoinSource(notes, head, target) => join_source(
            alloc, notes, head, target, at, token,
        ),
        State::JoinDot(notes, head, target, source) => {
            Ok(when_mark(
                Mark::Dot,
                token,
                State::JoinName(notes, head, target, source),
            ))
        }
        State::JoinName(notes, head, target, source) => {
            Ok(join_name(notes, head, target, source, token))
        }
        State::JoinAlias(notes, head, target, source, name) => {
            join_alias(alloc, notes, head, target, source, name, at, token)
        }
        _ => unreachable!(),
    }
}

/// The state behind one token more of a path in a condition.
#[inline(never)]
fn in_path(alloc: Global, state: State, at: u32, token: Token) -> Result<Option<State>, OutOfMemory>
    requires { stage state ≡ stages.Paths }
    ensures { IfOk result (λ s. s ≡ step state at token) }
{
    match state {
        State::Path(notes, around, goal, names) => {
            let next = path(alloc, notes, around, goal, names, &token);
            drop(token);
            next
        }
        State::Field(notes, around, goal, names) => field(notes, around, goal, names, token),
        _ => unreachable!(),
    }
}

/// The state behind one token more of an operand, or of what stands before and behind operands.
#[inline(never)]
fn in_operands(
    alloc: Global,
    state: State,
    at: u32,
    token: Token,
) -> Result<Option<State>, OutOfMemory>
    requires { stage state ≡ stages.Operands }
    ensures { IfOk result (λ s. s ≡ step state at token) }
{
    match state {
        State::Factor(notes, around) => factor(alloc, notes, around, at, token),
        State::Operand(notes, around, goal) => operand(alloc, notes, around, goal, at, token),
        State::Behind(notes, around, goal, operand) => {
            let next = behind(alloc, notes, around, goal, operand, &token);
            drop(token);
            next
        }
        _ => unreachable!(),
    }
}

/// The state behind one token more of a list, or behind a function's name or a factor.
#[inline(never)]
fn in_lists(
    alloc: Global,
    state: State,
    at: u32,
    token: Token,
) -> Result<Option<State>, OutOfMemory>
    requires { stage state ≡ stages.Lists }
    ensures { IfOk result (λ s. s ≡ step state at token) }
{
    match state {
        State::FunctionOpen(notes, around, goal) => {
            Ok(when_mark(Mark::Open, token, State::Operand(notes, around, goal)))
        }
        State::ListOpen(notes, around, operand, within) => {
            let next = State::ListItem(notes, around, operand, within, List::new(alloc));
            Ok(when_mark(Mark::OpenList, token, next))
        }
        State::ListItem(notes, around, operand, within, literals) => {
            list_item(notes, around, operand, within, literals, token)
        }
        State::BehindListItem(notes, around, operand, within, literals) => {
            let next = behind_list_item(alloc, notes, around, operand, within, literals, &token);
            drop(token);
            next
        }
        State::BehindFactor(notes, head, before, built, chains, room) => {
            let next = behind_factor(alloc, notes, head, before, built, chains, room, &token);
            drop(token);
            next
        }
        _ => unreachable!(),
    }
}

/// The state behind one token more of a test for a model.
#[inline(never)]
fn in_model_test(
    alloc: Global,
    state: State,
    at: u32,
    token: Token,
) -> Result<Option<State>, OutOfMemory>
    requires { stage state ≡ stages.Model }
    ensures { IfOk result (λ s. s ≡ step state at token) }
{
    match state {
        State::ModelOpen(notes, around, spot) => {
            Ok(when_mark(Mark::Open, token, State::ModelStart(notes, around, spot)))
        }
        State::ModelStart(notes, around, spot) => {
            model_start(alloc, notes, around, spot, at, token)
        }
        State::ModelComma(notes, around, twin) => {
            Ok(when_mark(
                Mark::Comma,
                token,
                State::ModelText(notes, around, Some(twin)),
            ))
        }
        State::ModelText(notes, around, twin) => Ok(model_text(notes, around, twin, token)),
        State::BehindModel(notes, around, twin, model) => {
            let next = behind_model(alloc, notes, around, twin, model, &token);
            drop(token);
            next
        }
        State::Exact(notes, around, twin, model) => {
            let next = exact(notes, around, twin, model, &token);
            drop(token);
            Ok(next)
        }
        State::ModelClose(notes, around, twin, model) => {
            let cond = Cond::OfModel {
                twin,
                model,
                exact: true,
            };
            let next = behind_close(alloc, notes, around, Built { cond }, &token);
            drop(token);
            next
        }
        _ => unreachable!(),
    }
}

/// The state behind one token more; none where no query begins with the tokens up to it.
pub fn step(
    alloc: Global,
    state: State,
    at: u32,
    token: Token,
) -> Result<Option<State>, OutOfMemory>
    ensures { IfOk result (λ s. s ≡ step state at token) }
{
    match stage_of(&state) {
        Stage::Selecting => in_selection(alloc, state, at, token),
        Stage::Items => in_items(alloc, state, at, token),
        Stage::Sourcing => in_source(alloc, state, at, token),
        Stage::Joining => in_joins(alloc, state, at, token),
        Stage::Paths => in_path(alloc, state, at, token),
        Stage::Operands => in_operands(alloc, state, at, token),
        Stage::Lists => in_lists(alloc, state, at, token),
        Stage::Model => in_model_test(alloc, state, at, token),
    }
}
