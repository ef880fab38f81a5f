//! Queries from their texts.

ghost use Rattle.std.specs.Prelude.{◌≡◌, ◌≤◌, length, IsTrue, IsFalse, IfOk, MatchOption, MatchResult};
ghost use Rattle.query_terms.specs.Queries.{asked};
ghost use Rattle.query_grammar.specs.Texts.{IsQueryText};
ghost use Rattle.query_grammar.specs.Spelled.{SpellsQuery, is_star, IsStarWithJoin};
ghost use Rattle.query_parse.specs.Faults.{RefusesQuery};
ghost use Rattle.query_parse.specs.Machinery.Reached.{Takes, TakesNone, RefusesByte};

use crate::aliases::{twice, unknown};
use crate::fault::QueryFault;
use dt_base::OutOfMemory;
use query_grammar::{Notes, State};
use query_lexer::{behind_spaces, token_of};
use query_steps::{end, step};
use query_terms::{Projection, Query};
use std::alloc::Global;

/// The most bytes of a query's text.
const MOST_BYTES: usize = 8192;

/// The most joins.
const MOST_JOINS: usize = 5;

/// The query of all tokens of a text, with the names in it.
fn whole(alloc: Global, text: &str) -> Result<(Query, Notes), QueryFault>
    requires { length text.now ≤ 8192 }
    ensures { MatchResult result (λ p. IsQueryText text.now (asked p.0, p.1)) (RefusesByte text.now) }
{
    let mut state = State::Start;
    let mut rest = behind_spaces(text);
    'tokens: while !rest.is_empty() {
        let at = (text.len() - rest.len()) as u32;
        let Some((token, behind)) = token_of(alloc, rest)? else {
            return Err(QueryFault::Byte { at });
        };
        match step(alloc, state, at, token)? {
            Some(next) => state = next,
            None => return Err(QueryFault::Byte { at }),
        }
        rest = behind_spaces(behind);
    }
    match end(alloc, state)? {
        Some(whole) => Ok(whole),
        None => Err(QueryFault::Byte {
            at: text.len() as u32,
        }),
    }
}

/// Whether rows are given whole.
fn is_star(select: &Projection) -> bool
    ensures { result ≡ is_star select.now }
{
    match select {
        Projection::Count => false,
        Projection::Star { top: _ } => true,
        Projection::Items { top: _, items: _ } => false,
    }
}

/// Whether rows are given whole and there is a join.
#[tactic(auto, using(crate::proofs::Refusals::star_joined, crate::proofs::Refusals::no_star, crate::proofs::Refusals::no_join))]
fn is_star_with_join(query: &Query) -> bool
    ensures yes { IsTrue result → IsStarWithJoin (asked query.now) }
    ensures no { IsFalse result → IsStarWithJoin (asked query.now) → ⊥ }
{
    if is_star(&query.select) {
        query.joins.len() > 0
    } else {
        false
    }
}

/// The query that a text of the query language is (this project's own; its words are those of the query language of
/// Azure Digital Twins). It fails by the first fault of the text, or where there is no memory.
pub fn read(alloc: Global, text: &str) -> Result<Query, QueryFault>
    ensures { MatchResult result (λ q. SpellsQuery text.now (asked q)) (RefusesQuery text.now) }
{
    if text.len() > MOST_BYTES {
        return Err(QueryFault::TooLong);
    }
    let (query, notes) = whole(alloc, text)?;
    if query.joins.len() > MOST_JOINS {
        return Err(QueryFault::TooManyJoins);
    }
    if is_star_with_join(&query) {
        return Err(QueryFault::StarWithJoin);
    }
    if let Some(at) = twice(&notes) {
        return Err(QueryFault::TwiceAlias { at });
    }
    if let Some(at) = unknown(&query, &notes) {
        return Err(QueryFault::UnknownAlias { at });
    }
    Ok(query)
}
