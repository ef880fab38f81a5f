//! The states of reading what is selected.

ghost use Rattle.std.specs.Prelude.{◌≡◌, ◌≤◌, ◌^◌, [], ◌∷◌, ◌++◌, Some, IfOk};
ghost use Rattle.json_decimal.specs.Decimals.{number_of};
ghost use Rattle.query_grammar.specs.declared.state.State.TheVariants as states;
ghost use Rattle.query_grammar.specs.Grammar.{top_size};
ghost use Rattle.query_grammar.specs.Machinery.Steps.{start_step, item_begun, select_step, top_number_step, behind_top_step, item_start_step, behind_item_step, item_path_step, item_field_step, item_as_step, noting_output};

use crate::noting::{item_noted, item_path_noted, with_name};
use crate::tests_of_tokens::{is_as, is_dot};
use dt_base::{List, OutOfMemory, Text};
use json_decimal::Decimal;
use query_grammar::{Notes, PlacedName, State};
use query_terms::tokens::{Mark, Token, Word};
use query_terms::{Item, Projection};
use std::alloc::Global;

/// The most items.
const MOST_ITEMS: usize = 20;

pub(crate) fn start(token: &Token) -> Option<State>
    ensures { result ≡ start_step token.now }
{
    match token {
        Token::Name(Word::Select, _) => Some(State::Select),
        _ => None,
    }
}

/// The state behind the first name of an item.
fn item_begun(
    alloc: Global,
    notes: Notes,
    top: Option<u32>,
    items: List<Item>,
    at: u32,
    name: Text,
) -> Result<Option<State>, OutOfMemory>
    ensures { IfOk result (λ s. s ≡ Some (item_begun notes top items at name)) }
{
    let Ok((notes, path, last)) = item_path_noted(alloc, notes, at, name) else {
        drop(items);
        return Err(OutOfMemory);
    };
    Ok(Some(State::ItemPath(notes, top, items, path, last)))
}

pub(crate) fn select(alloc: Global, at: u32, token: Token) -> Result<Option<State>, OutOfMemory>
    ensures { IfOk result (λ s. s ≡ select_step at token) }
{
    match token {
        Token::Name(Word::Count, name) => {
            drop(name);
            Ok(Some(State::CountOpen))
        }
        Token::Name(Word::Top, name) => {
            drop(name);
            Ok(Some(State::TopOpen))
        }
        Token::Name(Word::Alias, name) => {
            item_begun(alloc, Notes::new(alloc), None, List::new(alloc), at, name)
        }
        Token::Mark(Mark::Star) => {
            drop(token);
            let rows = Projection::Star { top: None };
            Ok(Some(State::BehindSelect(Notes::new(alloc), rows)))
        }
        other => {
            drop(other);
            Ok(None)
        }
    }
}

/// How many rows a number asks for, where it is whole and from 1 to 1,000,000.
fn top_size(number: &Decimal) -> Option<u32>
    ensures { result ≡ top_size (number_of number.now) }
{
    if number.negative {
        return None;
    }
    if number.exponent < 0 {
        return None;
    }
    if number.exponent > 6 {
        return None;
    }
    let coefficient = number.coefficient();
    if coefficient > 1_000_000 {
        return None;
    }
    let size = coefficient as u64 * power_of_ten(number.exponent as u32);
    if size < 1 || size > 1_000_000 {
        return None;
    }
    Some(size as u32)
}

pub(crate) fn top_number(token: &Token) -> Option<State>
    ensures { result ≡ top_number_step token.now }
{
    match token {
        Token::Number(number) => match top_size(number) {
            Some(size) => Some(State::TopClose(size)),
            None => None,
        },
        _ => None,
    }
}

pub(crate) fn behind_top(
    alloc: Global,
    size: u32,
    at: u32,
    token: Token,
) -> Result<Option<State>, OutOfMemory>
    ensures { IfOk result (λ s. s ≡ behind_top_step size at token) }
{
    match token {
        Token::Name(Word::From, name) => {
            drop(name);
            let rows = Projection::Star { top: Some(size) };
            Ok(Some(State::Source(Notes::new(alloc), rows)))
        }
        Token::Name(Word::Alias, name) => {
            item_begun(
                alloc,
                Notes::new(alloc),
                Some(size),
                List::new(alloc),
                at,
                name,
            )
        }
        Token::Mark(Mark::Star) => {
            drop(token);
            let rows = Projection::Star { top: Some(size) };
            Ok(Some(State::BehindSelect(Notes::new(alloc), rows)))
        }
        other => {
            drop(other);
            Ok(None)
        }
    }
}

pub(crate) fn item_start(
    alloc: Global,
    notes: Notes,
    top: Option<u32>,
    items: List<Item>,
    at: u32,
    token: Token,
) -> Result<Option<State>, OutOfMemory>
    ensures { IfOk result (λ s. s ≡ item_start_step notes top items at token) }
{
    match token {
        Token::Name(Word::Alias, name) => item_begun(alloc, notes, top, items, at, name),
        other => {
            drop((notes, items, other));
            Ok(None)
        }
    }
}

pub(crate) fn behind_item(
    notes: Notes,
    top: Option<u32>,
    items: List<Item>,
    token: &Token,
) -> Option<State>
    ensures { result ≡ behind_item_step notes top items token.now }
{
    match token {
        Token::Name(Word::From, _) => Some(State::Source(notes, Projection::Items { top, items })),
        Token::Mark(Mark::Comma) => {
            if items.len() < MOST_ITEMS {
                Some(State::ItemStart(notes, top, items))
            } else {
                drop((notes, items));
                None
            }
        }
        _ => {
            drop((notes, items));
            None
        }
    }
}

pub(crate) fn item_path(
    alloc: Global,
    notes: Notes,
    top: Option<u32>,
    items: List<Item>,
    path: List<Text>,
    last: PlacedName,
    token: &Token,
) -> Result<Option<State>, OutOfMemory>
    ensures { IfOk result (λ s. s ≡ item_path_step notes top items path last token.now) }
{
    if is_dot(token) {
        drop(last);
        return Ok(Some(State::ItemField(notes, top, items, path)));
    }
    if is_as(token) {
        drop(last);
        return Ok(Some(State::ItemAs(notes, top, items, path)));
    }
    let (notes, items) = item_noted(alloc, notes, items, path, last)?;
    Ok(behind_item(notes, top, items, token))
}

/// The state behind one name more of an item's path.
fn item_path_longer(
    alloc: Global,
    notes: Notes,
    top: Option<u32>,
    items: List<Item>,
    path: List<Text>,
    last: PlacedName,
) -> Result<Option<State>, OutOfMemory>
    ensures { IfOk result (λ s. s ≡ Some (states.ItemPath notes top items (path ++ last.1 ∷ []) last)) }
{
    let Ok(path) = with_name(alloc, path, &last.name) else {
        drop((notes, items, last));
        return Err(OutOfMemory);
    };
    Ok(Some(State::ItemPath(notes, top, items, path, last)))
}

pub(crate) fn item_field(
    alloc: Global,
    notes: Notes,
    top: Option<u32>,
    items: List<Item>,
    path: List<Text>,
    at: u32,
    token: Token,
) -> Result<Option<State>, OutOfMemory>
    ensures { IfOk result (λ s. s ≡ item_field_step notes top items path at token) }
{
    match token {
        Token::Name(_, name) => {
            item_path_longer(alloc, notes, top, items, path, PlacedName { at, name })
        }
        other => {
            drop((notes, items, path, other));
            Ok(None)
        }
    }
}

/// The state behind the name that an item has in the answer.
fn item_named(
    alloc: Global,
    notes: Notes,
    top: Option<u32>,
    items: List<Item>,
    path: List<Text>,
    placed: PlacedName,
) -> Result<Option<State>, OutOfMemory>
    ensures { IfOk result (λ s. s ≡ Some (states.BehindItem (noting_output notes placed) top (items ++ (record { path = path; out = placed.1 }) ∷ []))) }
{
    let (notes, items) = item_noted(alloc, notes, items, path, placed)?;
    Ok(Some(State::BehindItem(notes, top, items)))
}

pub(crate) fn item_as(
    alloc: Global,
    notes: Notes,
    top: Option<u32>,
    items: List<Item>,
    path: List<Text>,
    at: u32,
    token: Token,
) -> Result<Option<State>, OutOfMemory>
    ensures { IfOk result (λ s. s ≡ item_as_step notes top items path at token) }
{
    match token {
        Token::Name(Word::Alias, name) => {
            item_named(alloc, notes, top, items, path, PlacedName { at, name })
        }
        other => {
            drop((notes, items, path, other));
            Ok(None)
        }
    }
}

/// A power of ten.
fn power_of_ten(power: u32) -> u64
    requires { power ≤ 6 }
    ensures { result ≡ 10 ^ power }
{
    match power {
        0 => 1,
        1 => 10,
        2 => 100,
        3 => 1_000,
        4 => 10_000,
        5 => 100_000,
        _ => 1_000_000,
    }
}
