//! What is asked of the path of queries.

ghost use Rattle.std.specs.Prelude.{IfOk};
ghost use Rattle.json_tree.specs.View.{view};
ghost use Rattle.graph_routes.specs.Outcomes.{WithBody};
ghost use Rattle.graph_routes.specs.QueryRequests.{AsksQuery, AsksRows};

use crate::asks::not_allowed;
use crate::bodies::fault_refusal;
use crate::method::Method;
use crate::prepared::Prepared;
use crate::route::Route;
use dt_base::OutOfMemory;
use json_read::read;
use json_tree::Tree;
use query_bodies::ask_of_body;
use std::alloc::Global;

/// The ask that a value makes, or the refusal of one that makes none.
fn rows_of(alloc: Global, tree: &Tree) -> Result<Prepared, OutOfMemory>
    ensures { IfOk result (AsksRows (view tree.now)) }
{
    match ask_of_body(alloc, tree)? {
        Ok(ask) => Ok(Prepared::Ask(ask)),
        Err(refusal) => Ok(Prepared::Own(refusal)),
    }
}

/// What a body of a query comes to.
fn asks_rows(alloc: Global, body: &[u8]) -> Result<Prepared, OutOfMemory>
    ensures { IfOk result (WithBody body.now AsksRows) }
{
    match read(alloc, body) {
        Ok(tree) => rows_of(alloc, &tree),
        Err(fault) => Ok(Prepared::Own(fault_refusal(alloc, body, &fault)?)),
    }
}

/// What a method asks of `/query`. Only want of memory makes it fail.
pub fn asked_of_query(alloc: Global, method: Method, body: &[u8]) -> Result<Prepared, OutOfMemory>
    ensures { IfOk result (AsksQuery method body.now) }
{
    match method {
        Method::Post => asks_rows(alloc, body),
        Method::Delete | Method::Get | Method::Patch | Method::Put => {
            not_allowed(alloc, Route::Query)
        }
    }
}
