//! The responses of replies and refusals.

ghost use Rattle.std.specs.Prelude.{◌≡◌, IfOk};
ghost use Rattle.json_tree.specs.Printing.{printed};
ghost use Rattle.json_tree.specs.View.{view};
ghost use Rattle.graph_routes.specs.Errors.{status_of};
ghost use Rattle.graph_routes.specs.Responses.{AnswersMethods, ListsMethods, allow_of, plain, response_for, response_to};
ghost use Rattle.http_ends.specs.Replies.{IsWritable};

use crate::errors::body_of;
use dt_base::{List, OutOfMemory, Text};
use graph_asks::{Refusal, Reply};
use http_ends::Response;
use json_tree::{Tree, print};
use std::alloc::Global;

/// The status of a refusal (RFC 9110, section 15).
fn status_of(refusal: &Refusal) -> u16
    ensures { result ≡ status_of refusal.now }
{
    match refusal {
        Refusal::NoRoute
        | Refusal::ModelNotFound { id: _ }
        | Refusal::TwinNotFound { id: _ }
        | Refusal::RelationshipNotFound { id: _ }
        | Refusal::ComponentNotFound { id: _ } => 404,
        Refusal::BadMethod { allow: _ } => 405,
        Refusal::TransferCoding => 501,
        Refusal::BodyTooLong { limit: _ } => 413,
        Refusal::Full { limit: _ } => 507,
        Refusal::ModelExists { id: _ }
        | Refusal::ModelInUse { by: _ }
        | Refusal::TwinInUse { id: _, source: _ }
        | Refusal::DoesNotFit { id: _, source: _ }
        | Refusal::TwinDoesNotFit { twin: _ }
        | Refusal::Frozen { model: _ }
        | Refusal::Decommissioned { model: _ }
        | Refusal::WrongTarget { model: _ }
        | Refusal::Multiplicity { max: _ } => 409,
        Refusal::BadHead
        | Refusal::CutOff
        | Refusal::BadId { part: _ }
        | Refusal::BadToken
        | Refusal::JsonFault { at: _, fault: _ }
        | Refusal::TooManyModels { limit: _ }
        | Refusal::ModelFault { at: _, fault: _ }
        | Refusal::PatchFault { fault: _, index: _ }
        | Refusal::BodyFault { at: _, fault: _ }
        | Refusal::IdDiffers { given: _, path: _ }
        | Refusal::QueryFault { fault: _, at: _ } => 400,
    }
}

/// The methods that a refusal lists.
fn allow_of(alloc: Global, refusal: &Refusal) -> Result<Option<Text>, OutOfMemory>
    ensures { IfOk result (λ allow. allow ≡ allow_of refusal.now) }
{
    match refusal {
        Refusal::BadMethod { allow } => Ok(Some(allow.copy(alloc)?)),
        _ => Ok(None),
    }
}

/// A response with the text of a tree.
fn printed_in(alloc: Global, status: u16, tree: &Tree) -> Result<Response, OutOfMemory>
    ensures { IfOk result (λ response. response ≡ plain status (printed (view tree.now))) }
{
    let text = print(alloc, tree)?;
    Ok(Response {
        status,
        allow: None,
        body: List::from_vec(text.into_string(alloc)?.into_bytes()),
    })
}

/// The response of a refusal: its status, the methods of the path where it has not the one of the request, and its code
/// with what it tells as the members of `error`. Fails only for want of memory.
#[tactic(auto, unfolding(crate::specs::Responses::response_to))]
pub fn response_of_refusal(alloc: Global, refusal: &Refusal) -> Result<Response, OutOfMemory>
    ensures response { IfOk result (λ response. response ≡ response_to refusal.now) }
    // `write_response` takes it.
    ensures writable { ListsMethods refusal.now → IfOk result IsWritable }
{
    let body = body_of(alloc, refusal)?;
    let allow = allow_of(alloc, refusal)?;
    Ok(Response {
        status: status_of(refusal),
        allow,
        body,
    })
}

/// The response of a reply: 200 with what was asked for, 201 with what was made, 200 with a canonical text, 204 without
/// a body, or that of a refusal. Fails only for want of memory.
#[tactic(auto, unfolding(crate::specs::Responses::response_for))]
pub fn response_of(alloc: Global, reply: &Reply) -> Result<Response, OutOfMemory>
    ensures response { IfOk result (λ response. response ≡ response_for reply.now) }
    // `write_response` takes it.
    ensures writable { AnswersMethods reply.now → IfOk result IsWritable }
{
    match reply {
        Reply::Body(tree) => printed_in(alloc, 200, tree),
        Reply::Created(tree) => printed_in(alloc, 201, tree),
        Reply::Canon(text) => Ok(Response {
            status: 200,
            allow: None,
            body: List::from_vec(Vec::from_slice(alloc, text.as_slice())?),
        }),
        Reply::Done => Ok(Response {
            status: 204,
            allow: None,
            body: List::new(alloc),
        }),
        Reply::Refused(refusal) => response_of_refusal(alloc, refusal),
    }
}
