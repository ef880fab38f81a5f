//! The query behind all tokens.

ghost use Rattle.std.specs.Prelude.{◌≡◌, None, IfOk};
ghost use Rattle.std.specs.Option.{option_map};
ghost use Rattle.query_terms.specs.Queries.{asked};
ghost use Rattle.query_grammar.specs.declared.state.State.TheVariants as states;
ghost use Rattle.query_grammar.specs.Machinery.Steps.{asked_of, end, end_of_chain, end_closed, end_behind, with_join, head_of};

use crate::building::{term_of, with_either};
use crate::leaving::{let_go, let_terms_go};
use crate::sourcing::{head_of, joined};
use dt_base::{OutOfMemory, Text};
use query_grammar::{Around, Built, Chain, Chains, Goal, Head, Notes, State};
use query_terms::{Cond, Operand, Query};
use std::alloc::Global;

/// The query that asks for what stands before the condition, under it.
fn query_of(head: Head, condition: Option<Built>) -> Query
    ensures { asked result ≡ asked_of head condition }
{
    let Head {
        select,
        relationships,
        alias,
        joins,
    } = head;
    let cond = match condition {
        Some(built) => Some(built.cond),
        None => None,
    };
    Query {
        select,
        relationships,
        alias,
        joins,
        cond,
    }
}

/// The query behind a factor, where no parenthesis is open.
fn end_of_chain(
    alloc: Global,
    notes: Notes,
    head: Head,
    before: Option<Built>,
    built: Built,
    chains: Chains,
) -> Result<Option<(Query, Notes)>, OutOfMemory>
    ensures { IfOk result (λ o. option_map (λ p. (asked p.0, p.1)) o ≡ end_of_chain notes head before built chains) }
{
    let mut chains = chains;
    match chains.pop() {
        Some(chain) => {
            let_terms_go(before, built);
            drop((notes, head, chains, chain));
            Ok(None)
        }
        None => {
            let Ok(whole) = with_either(alloc, before, built) else {
                drop((notes, head, chains));
                return Err(OutOfMemory);
            };
            drop(chains);
            Ok(Some((query_of(head, Some(whole)), notes)))
        }
    }
}

/// The query behind a factor that ends a condition.
fn end_closed(
    alloc: Global,
    notes: Notes,
    around: Around,
    factor: Built,
) -> Result<Option<(Query, Notes)>, OutOfMemory>
    ensures { IfOk result (λ o. option_map (λ p. (asked p.0, p.1)) o ≡ end_closed notes around factor) }
{
    let Around {
        head,
        chain,
        chains,
        room: _,
    } = around;
    let Chain {
        either,
        both,
        nots,
        room: _,
    } = chain;
    let Ok(term) = term_of(alloc, both, nots, factor) else {
        drop((notes, head, either, chains));
        return Err(OutOfMemory);
    };
    end_of_chain(alloc, notes, head, either, term, chains)
}

/// The query behind an operand that ends a comparison.
fn end_behind(
    alloc: Global,
    notes: Notes,
    around: Around,
    goal: Goal,
    operand: Operand,
) -> Result<Option<(Query, Notes)>, OutOfMemory>
    ensures { IfOk result (λ o. option_map (λ p. (asked p.0, p.1)) o ≡ end_behind notes around goal operand) }
{
    match goal {
        Goal::Right(left, compare) => {
            let cond = Cond::Compare(left, compare, operand);
            end_closed(alloc, notes, around, Built { cond })
        }
        other => {
            let_go(notes, around);
            drop((other, operand));
            Ok(None)
        }
    }
}

/// The query behind a join without an alias of its own.
fn end_of_join(
    notes: Notes,
    head: Head,
    target: Text,
    source: Text,
    name: Text,
) -> Result<Option<(Query, Notes)>, OutOfMemory>
    ensures { IfOk result (λ o. option_map (λ p. (asked p.0, p.1)) o ≡ end (states.JoinAlias notes head target source name)) }
{
    let Ok(head) = joined(head, target, source, name, None) else {
        drop(notes);
        return Err(OutOfMemory);
    };
    Ok(Some((query_of(head, None), notes)))
}

/// Lets a state go in which no query ends.
fn no_end(_state: State) -> Option<(Query, Notes)>
    ensures { result ≡ None }
{
    None
}

/// What is asked for, where the query may end here.
pub fn end(alloc: Global, state: State) -> Result<Option<(Query, Notes)>, OutOfMemory>
    ensures { IfOk result (λ o. option_map (λ p. (asked p.0, p.1)) o ≡ end state) }
{
    match state {
        State::RelationshipsAlias(notes, select) => {
            Ok(Some((query_of(head_of(alloc, select, true, None), None), notes)))
        }
        State::BehindRelationships(notes, head) => Ok(Some((query_of(head, None), notes))),
        State::TwinsAlias(notes, select) => {
            Ok(Some((query_of(head_of(alloc, select, false, None), None), notes)))
        }
        State::BehindTwins(notes, head) => Ok(Some((query_of(head, None), notes))),
        State::JoinAlias(notes, head, target, source, name) => {
            end_of_join(notes, head, target, source, name)
        }
        State::Path(notes, around, goal, path) => {
            end_behind(alloc, notes, around, goal, Operand::Path(path))
        }
        State::Behind(notes, around, goal, operand) => {
            end_behind(alloc, notes, around, goal, operand)
        }
        State::BehindFactor(notes, head, before, built, chains, _) => {
            end_of_chain(alloc, notes, head, before, built, chains)
        }
        other => Ok(no_end(other)),
    }
}
