//! What methods ask of paths.

ghost use Rattle.std.specs.Prelude.{◌≡◌, ℕ, List, IfOk};
ghost use Rattle.graph_routes.specs.ModelRequests.{AsksCanon, AsksModel, AsksModels};
ghost use Rattle.graph_routes.specs.Outcomes.{not_allowed};
ghost use Rattle.graph_routes.specs.Paths.{Matches};
ghost use Rattle.graph_routes.specs.Prepared.{Asks};

use crate::bodies::{marks, puts_models};
use crate::links::{asked_of_incoming, asked_of_link, asked_of_links};
use crate::method::{Method, allow_text};
use crate::parts::{first_part, model_named, second_part};
use crate::prepared::Prepared;
use crate::queries::asked_of_query;
use crate::route::Route;
use crate::twins::{asked_of_part, asked_of_twin};
use dt_base::{OutOfMemory, Text};
use graph_asks::{Ask, Refusal};
use http_ends::Request;
use std::alloc::Global;

/// The refusal of a path of which the part at a position is no identifier.
pub fn bad_id(part: u64) -> Prepared
    ensures { result ≡ Prepared.Own (Refusal.BadId part) }
{
    Prepared::Own(Refusal::BadId { part })
}

/// The refusal of a method that a path does not have. Fails only for want of memory.
pub fn not_allowed(alloc: Global, route: Route) -> Result<Prepared, OutOfMemory>
    ensures { IfOk result (λ answer. answer ≡ not_allowed route) }
{
    Ok(Prepared::Own(Refusal::BadMethod {
        allow: Text::from_str(alloc, allow_text(route))?,
    }))
}

fn get_model(alloc: Global, part: &str) -> Result<Prepared, OutOfMemory>
    ensures { (body : List ℕ) → IfOk result (AsksModel Method.Get part.now body) }
{
    match model_named(alloc, part)? {
        Some(id) => Ok(Prepared::Ask(Ask::GetModel { id })),
        None => Ok(bad_id(0)),
    }
}

fn drop_model(alloc: Global, part: &str) -> Result<Prepared, OutOfMemory>
    ensures { (body : List ℕ) → IfOk result (AsksModel Method.Delete part.now body) }
{
    match model_named(alloc, part)? {
        Some(id) => Ok(Prepared::Ask(Ask::DropModel { id })),
        None => Ok(bad_id(0)),
    }
}

fn patch_model(alloc: Global, part: &str, body: &[u8]) -> Result<Prepared, OutOfMemory>
    ensures { IfOk result (AsksModel Method.Patch part.now body.now) }
{
    match model_named(alloc, part)? {
        Some(id) => marks(alloc, id, body),
        None => Ok(bad_id(0)),
    }
}

/// What a method asks of `/models`.
fn asked_of_models(alloc: Global, method: Method, body: &[u8]) -> Result<Prepared, OutOfMemory>
    ensures { IfOk result (AsksModels method body.now) }
{
    match method {
        Method::Get => Ok(Prepared::Ask(Ask::ListModels)),
        Method::Post => puts_models(alloc, body),
        Method::Delete | Method::Patch | Method::Put => not_allowed(alloc, Route::Models),
    }
}

/// What a method asks of `/models/{id}`, where `part` is the text for the identifier.
fn asked_of_model(
    alloc: Global,
    method: Method,
    part: &str,
    body: &[u8],
) -> Result<Prepared, OutOfMemory>
    ensures { IfOk result (AsksModel method part.now body.now) }
{
    match method {
        Method::Get => get_model(alloc, part),
        Method::Patch => patch_model(alloc, part, body),
        Method::Delete => drop_model(alloc, part),
        Method::Post | Method::Put => not_allowed(alloc, Route::Model),
    }
}

/// What a method asks of `/canon`.
fn asked_of_canon(alloc: Global, method: Method) -> Result<Prepared, OutOfMemory>
    ensures { IfOk result (AsksCanon method) }
{
    match method {
        Method::Get => Ok(Prepared::Ask(Ask::Canon)),
        Method::Delete | Method::Patch | Method::Post | Method::Put => {
            not_allowed(alloc, Route::Canon)
        }
    }
}

/// What a method asks of a path of the table. Only want of memory makes it fail.
pub fn asked(
    alloc: Global,
    route: Route,
    method: Method,
    request: &Request,
) -> Result<Prepared, OutOfMemory>
    ensures { IfOk result (λ answer. (parts : List (List ℕ)) → Matches route parts request.now.path → Asks route method parts request.now answer) }
{
    let path = request.path.as_str();
    let query = request.query.as_str();
    let body = request.body.as_slice();
    let part = first_part(path);
    match route {
        Route::Models => asked_of_models(alloc, method, body),
        Route::Model => asked_of_model(alloc, method, part, body),
        Route::Canon => asked_of_canon(alloc, method),
        Route::Twin => asked_of_twin(alloc, method, part, body),
        Route::Component => asked_of_part(alloc, method, part, second_part(path), body),
        Route::Relationships => asked_of_links(alloc, method, part, query),
        Route::Relationship => asked_of_link(alloc, method, part, second_part(path), body),
        Route::IncomingRelationships => asked_of_incoming(alloc, method, part, query),
        Route::Query => asked_of_query(alloc, method, body),
    }
}
