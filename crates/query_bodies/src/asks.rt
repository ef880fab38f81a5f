//! The ask that the value of a query's body makes.

ghost use Rattle.std.specs.Prelude.{◌≤◌, length, IfOk};
ghost use Rattle.std.specs.Option.{option_map};
ghost use Rattle.json_tree.specs.View.{view};
ghost use Rattle.query_bodies.specs.Outcomes.{IsMadeOfBody, IsMadeOfQuery, IsMadeOfText};

use crate::breaches::body_refusal;
use crate::faults::fault_refusal;
use dt_base::{List, OutOfMemory};
use graph_asks::{Ask, Refusal};
use json_tree::{Tree, members_in, text_at};
use page_tokens::ids_of_token;
use query_parse::read;
use query_terms::Query;
use std::alloc::Global;

/// The ask for a page of the rows of a query past a token, or the refusal of a text that is no token of them.
fn ask_of_query(
    alloc: Global,
    query: Query,
    token: Option<&str>,
) -> Result<Result<Ask, Refusal>, OutOfMemory>
    requires { length query.joins ≤ 5 }
    ensures { IfOk result (IsMadeOfQuery (option_map (λ t. t.now) token.entry) query) }
{
    let Some(token) = token else {
        return Ok(Ok(Ask::Query { query, after: None }));
    };
    match ids_of_token(alloc, token, query.key_len() as usize)? {
        Some(ids) => Ok(Ok(Ask::Query {
            query,
            after: Some(List::from_vec(ids)),
        })),
        None => Ok(Err(Refusal::BadToken)),
    }
}

/// The same of a text, or the refusal of one that is no query.
fn ask_of_text(
    alloc: Global,
    text: &str,
    token: Option<&str>,
) -> Result<Result<Ask, Refusal>, OutOfMemory>
    ensures { IfOk result (IsMadeOfText text.now (option_map (λ t. t.now) token.entry)) }
{
    match read(alloc, text) {
        Ok(query) => ask_of_query(alloc, query, token),
        Err(fault) => Ok(Err(fault_refusal(alloc, &fault)?)),
    }
}

/// The ask that the value of a query's body makes, or the refusal that it decides (this project's own, after the queries of
/// Azure Digital Twins). Its member `query` is the text of the query, and `continuationToken`, where it is there and not
/// null, the token of a page; other members are ignored. The refusals in their order: `BodyFault` names the first breach of
/// the value, `QueryFault` the fault of the text, and `BadToken` a token with another number of ids than the keys of the
/// rows have, which for a count is any. It fails only for want of memory.
pub fn ask_of_body(alloc: Global, tree: &Tree) -> Result<Result<Ask, Refusal>, OutOfMemory>
    ensures { IfOk result (IsMadeOfBody (view tree.now)) }
{
    if let Some(refusal) = body_refusal(alloc, tree)? {
        return Ok(Err(refusal));
    }
    let members = members_in(tree);
    match text_at(members, "query") {
        Some(text) => ask_of_text(alloc, text, text_at(members, "continuationToken")),
        None => unreachable!(),
    }
}
