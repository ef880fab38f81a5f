//! The states of reading where rows come from.

ghost use Rattle.std.specs.Prelude.{◌≡◌, true, false, Some, None, length, IfOk};
ghost use Rattle.query_grammar.specs.declared.names.Referent.TheVariants as referents;
ghost use Rattle.query_grammar.specs.declared.state.State.TheVariants as states;
ghost use Rattle.query_grammar.specs.Machinery.Steps.{noting_alias, noting_use, source_step, condition_begun, head_of, relationships_alias_step, behind_relationships_step, twins_alias_step, behind_twins_step, join_target_step, join_source_step, join_name_step, with_join, join_alias_step};

use crate::noting::{alias_noted, use_noted};
use dt_base::{List, OutOfMemory, Text};
use query_grammar::{Around, Chain, Chains, Head, Notes, Referent, State};
use query_terms::tokens::{Token, Word};
use query_terms::{Join, Projection};
use std::alloc::Global;

/// How many parentheses and NOTs may be open at a place.
const MOST_OPEN: u32 = 64;

pub(crate) fn source(notes: Notes, select: Projection, token: &Token) -> Option<State>
    ensures { result ≡ source_step notes select token.now }
{
    match token {
        Token::Name(Word::Relationships, _) => Some(State::RelationshipsAlias(notes, select)),
        Token::Name(Word::Twins, _) => Some(State::TwinsAlias(notes, select)),
        _ => {
            drop((notes, select));
            None
        }
    }
}

/// What stands before the joins and the condition.
pub(crate) fn head_of(
    alloc: Global,
    select: Projection,
    relationships: bool,
    alias: Option<Text>,
) -> Head
    ensures { result ≡ head_of select relationships alias }
{
    Head {
        select,
        relationships,
        alias,
        joins: List::new(alloc),
    }
}

/// The state behind WHERE.
fn condition_begun(alloc: Global, notes: Notes, head: Head) -> State
    ensures { result ≡ condition_begun notes head }
{
    let chain = Chain {
        either: None,
        both: None,
        nots: 0,
        room: MOST_OPEN,
    };
    let around = Around {
        head,
        chain,
        chains: Chains::new(alloc),
        room: MOST_OPEN,
    };
    State::Factor(notes, around)
}

/// The state behind the alias of the relationships.
fn relationships_named(
    alloc: Global,
    notes: Notes,
    select: Projection,
    at: u32,
    name: Text,
) -> Result<Option<State>, OutOfMemory>
    ensures { IfOk result (λ s. s ≡ Some (states.BehindRelationships (noting_alias notes (at, name)) (head_of select true (Some name)))) }
{
    let Ok((notes, alias)) = alias_noted(alloc, notes, at, name) else {
        drop(select);
        return Err(OutOfMemory);
    };
    let head = head_of(alloc, select, true, Some(alias));
    Ok(Some(State::BehindRelationships(notes, head)))
}

pub(crate) fn relationships_alias(
    alloc: Global,
    notes: Notes,
    select: Projection,
    at: u32,
    token: Token,
) -> Result<Option<State>, OutOfMemory>
    ensures { IfOk result (λ s. s ≡ relationships_alias_step notes select at token) }
{
    match token {
        Token::Name(Word::Alias, name) => relationships_named(alloc, notes, select, at, name),
        Token::Name(Word::Where, name) => {
            drop(name);
            let head = head_of(alloc, select, true, None);
            Ok(Some(condition_begun(alloc, notes, head)))
        }
        other => {
            drop((notes, select, other));
            Ok(None)
        }
    }
}

pub(crate) fn behind_relationships(
    alloc: Global,
    notes: Notes,
    head: Head,
    token: &Token,
) -> Option<State>
    ensures { result ≡ behind_relationships_step notes head token.now }
{
    match token {
        Token::Name(Word::Where, _) => Some(condition_begun(alloc, notes, head)),
        _ => {
            drop((notes, head));
            None
        }
    }
}

/// The state behind the alias of the twins.
fn twins_named(
    alloc: Global,
    notes: Notes,
    select: Projection,
    at: u32,
    name: Text,
) -> Result<Option<State>, OutOfMemory>
    ensures { IfOk result (λ s. s ≡ Some (states.BehindTwins (noting_alias notes (at, name)) (head_of select false (Some name)))) }
{
    let Ok((notes, alias)) = alias_noted(alloc, notes, at, name) else {
        drop(select);
        return Err(OutOfMemory);
    };
    let head = head_of(alloc, select, false, Some(alias));
    Ok(Some(State::BehindTwins(notes, head)))
}

pub(crate) fn twins_alias(
    alloc: Global,
    notes: Notes,
    select: Projection,
    at: u32,
    token: Token,
) -> Result<Option<State>, OutOfMemory>
    ensures { IfOk result (λ s. s ≡ twins_alias_step notes select at token) }
{
    match token {
        Token::Name(Word::Alias, name) => twins_named(alloc, notes, select, at, name),
        Token::Name(Word::Join, name) => {
            drop(name);
            let head = head_of(alloc, select, false, None);
            Ok(Some(State::JoinTarget(notes, head)))
        }
        Token::Name(Word::Where, name) => {
            drop(name);
            let head = head_of(alloc, select, false, None);
            Ok(Some(condition_begun(alloc, notes, head)))
        }
        other => {
            drop((notes, select, other));
            Ok(None)
        }
    }
}

pub(crate) fn behind_twins(alloc: Global, notes: Notes, head: Head, token: &Token) -> Option<State>
    ensures { result ≡ behind_twins_step notes head token.now }
{
    match token {
        Token::Name(Word::Join, _) => Some(State::JoinTarget(notes, head)),
        Token::Name(Word::Where, _) => Some(condition_begun(alloc, notes, head)),
        _ => {
            drop((notes, head));
            None
        }
    }
}

/// The state behind the alias of what a join leads to.
fn join_target_named(
    alloc: Global,
    notes: Notes,
    head: Head,
    at: u32,
    name: Text,
) -> Result<Option<State>, OutOfMemory>
    ensures { IfOk result (λ s. s ≡ Some (states.JoinRelated (noting_alias notes (at, name)) head name)) }
{
    let Ok((notes, target)) = alias_noted(alloc, notes, at, name) else {
        drop(head);
        return Err(OutOfMemory);
    };
    Ok(Some(State::JoinRelated(notes, head, target)))
}

pub(crate) fn join_target(
    alloc: Global,
    notes: Notes,
    head: Head,
    at: u32,
    token: Token,
) -> Result<Option<State>, OutOfMemory>
    ensures { IfOk result (λ s. s ≡ join_target_step notes head at token) }
{
    match token {
        Token::Name(Word::Alias, name) => join_target_named(alloc, notes, head, at, name),
        other => {
            drop((notes, head, other));
            Ok(None)
        }
    }
}

/// The state behind the alias of what a join begins with.
fn join_source_named(
    alloc: Global,
    notes: Notes,
    head: Head,
    target: Text,
    at: u32,
    name: Text,
) -> Result<Option<State>, OutOfMemory>
    ensures { IfOk result (λ s. s ≡ Some (states.JoinDot (noting_use notes (at, name) (referents.Source (length head.joins))) head target name)) }
{
    let referent = Referent::Source(head.joins.len());
    let Ok((notes, source)) = use_noted(alloc, notes, at, name, referent) else {
        drop((head, target));
        return Err(OutOfMemory);
    };
    Ok(Some(State::JoinDot(notes, head, target, source)))
}

pub(crate) fn join_source(
    alloc: Global,
    notes: Notes,
    head: Head,
    target: Text,
    at: u32,
    token: Token,
) -> Result<Option<State>, OutOfMemory>
    ensures { IfOk result (λ s. s ≡ join_source_step notes head target at token) }
{
    match token {
        Token::Name(Word::Alias, name) => {
            join_source_named(alloc, notes, head, target, at, name)
        }
        other => {
            drop((notes, head, target, other));
            Ok(None)
        }
    }
}

pub(crate) fn join_name(
    notes: Notes,
    head: Head,
    target: Text,
    source: Text,
    token: Token,
) -> Option<State>
    ensures { result ≡ join_name_step notes head target source token }
{
    match token {
        Token::Name(_, name) => Some(State::JoinAlias(notes, head, target, source, name)),
        other => {
            drop((notes, head, target, source, other));
            None
        }
    }
}

/// What stands before the condition, with one join more.
pub(crate) fn joined(
    head: Head,
    target: Text,
    from: Text,
    name: Text,
    rel: Option<Text>,
) -> Result<Head, OutOfMemory>
    ensures { IfOk result (λ h. h ≡ with_join head target from name rel) }
{
    let mut head = head;
    let join = Join {
        target,
        from,
        name,
        rel,
    };
    let Ok(()) = head.joins.push(join) else {
        drop(head);
        return Err(OutOfMemory);
    };
    Ok(head)
}

/// The state behind the alias of the relationships of a join.
fn join_named(
    alloc: Global,
    notes: Notes,
    head: Head,
    target: Text,
    source: Text,
    relationship: Text,
    at: u32,
    name: Text,
) -> Result<Option<State>, OutOfMemory>
    ensures { IfOk result (λ s. s ≡ Some (states.BehindTwins (noting_alias notes (at, name)) (with_join head target source relationship (Some name)))) }
{
    let Ok((notes, rel)) = alias_noted(alloc, notes, at, name) else {
        drop((head, target, source, relationship));
        return Err(OutOfMemory);
    };
    let Ok(head) = joined(head, target, source, relationship, Some(rel)) else {
        drop(notes);
        return Err(OutOfMemory);
    };
    Ok(Some(State::BehindTwins(notes, head)))
}

/// The state behind a join without an alias of its own that one more join follows.
fn join_again(
    notes: Notes,
    head: Head,
    target: Text,
    source: Text,
    relationship: Text,
) -> Result<Option<State>, OutOfMemory>
    ensures { IfOk result (λ s. s ≡ Some (states.JoinTarget notes (with_join head target source relationship None))) }
{
    let Ok(head) = joined(head, target, source, relationship, None) else {
        drop(notes);
        return Err(OutOfMemory);
    };
    Ok(Some(State::JoinTarget(notes, head)))
}

/// The state behind a join without an alias of its own that WHERE follows.
fn join_where(
    alloc: Global,
    notes: Notes,
    head: Head,
    target: Text,
    source: Text,
    relationship: Text,
) -> Result<Option<State>, OutOfMemory>
    ensures { IfOk result (λ s. s ≡ Some (condition_begun notes (with_join head target source relationship None))) }
{
    let Ok(head) = joined(head, target, source, relationship, None) else {
        drop(notes);
        return Err(OutOfMemory);
    };
    Ok(Some(condition_begun(alloc, notes, head)))
}

pub(crate) fn join_alias(
    alloc: Global,
    notes: Notes,
    head: Head,
    target: Text,
    source: Text,
    relationship: Text,
    at: u32,
    token: Token,
) -> Result<Option<State>, OutOfMemory>
    ensures { IfOk result (λ s. s ≡ join_alias_step notes head target source relationship at token) }
{
    match token {
        Token::Name(Word::Alias, name) => {
            join_named(alloc, notes, head, target, source, relationship, at, name)
        }
        Token::Name(Word::Join, name) => {
            drop(name);
            join_again(notes, head, target, source, relationship)
        }
        Token::Name(Word::Where, name) => {
            drop(name);
            join_where(alloc, notes, head, target, source, relationship)
        }
        other => {
            drop((notes, head, target, source, relationship, other));
            Ok(None)
        }
    }
}
