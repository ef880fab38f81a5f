//! The answers of a service, made of replies and refusals.

ghost use Rattle.std.specs.Prelude.{◌≡◌, true, false, IfOk, MatchResult};
ghost use Rattle.graph_routes.specs.Responses.{AnswersMethods, ListsMethods, response_for, response_to};
ghost use Rattle.http_ends.specs.Replies.{IsWritable};
ghost use Rattle.http_session.specs.declared.service.Trouble.TheVariants.{EntryInHand, NoEntry};

use dt_base::OutOfMemory;
use graph_asks::{Refusal, Reply};
use graph_routes::{response_of, response_of_refusal};
use http_session::{Answer, Trouble};
use std::alloc::Global;

/// Answers with the refusal that a request's own bytes decide.
pub(crate) fn answer_of_refusal(alloc: Global, refusal: &Refusal) -> Result<Answer, Trouble>
    requires { ListsMethods refusal.now }
    ensures refused { MatchResult result (λ answer. (answer.response ≡ response_to refusal.now) × (answer.entered ≡ false)) (λ trouble. trouble ≡ NoEntry) }
    ensures writable { IfOk result (λ answer. IsWritable answer.response) }
{
    match response_of_refusal(alloc, refusal) {
        Ok(response) => Ok(Answer {
            response,
            entered: false,
        }),
        Err(OutOfMemory) => Err(Trouble::NoEntry),
    }
}

/// Answers with the reply of a graph, of which there is an entry.
pub(crate) fn answer_of_reply(alloc: Global, reply: &Reply) -> Result<Answer, Trouble>
    requires { AnswersMethods reply.now }
    ensures made { MatchResult result (λ answer. (answer.response ≡ response_for reply.now) × (answer.entered ≡ true)) (λ trouble. trouble ≡ EntryInHand) }
    ensures writable { IfOk result (λ answer. IsWritable answer.response) }
{
    match response_of(alloc, reply) {
        Ok(response) => Ok(Answer {
            response,
            entered: true,
        }),
        Err(OutOfMemory) => Err(Trouble::EntryInHand),
    }
}
