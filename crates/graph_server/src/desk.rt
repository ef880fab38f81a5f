//! Who answers the requests of a link.

ghost use Rattle.std.specs.Prelude.{◌≡◌, IfOk};
ghost use Rattle.http_ends.specs.Replies.{IsWritable};
ghost use Rattle.one_history.specs.Passes.{IsPassOf};
ghost use Rattle.graph_steps.specs.Soundness.{IsSoundAsk};
ghost use Rattle.graph_server.specs.Links.{AnswersAsGraph};
ghost use Rattle.graph_server.specs.Machinery.Asking.{IsAsked};
ghost use Rattle.graph_server.specs.Machinery.Calling.{DeskGoesOn};

use crate::answers::{answer_of_refusal, answer_of_reply};
use connections::Gate;
use dt_base::Object;
use graph_asks::{Ask, Reply};
use graph_routes::{Prepared, Routes, prepared_is_right};
use http_ends::Request;
use http_session::{Answer, Service, Trouble};
use one_history::{Pass, Shared};
use std::alloc::Global;
use std::sync::Wait;

/// A pass to a graph that threads share, and the routes to it.
#[derive(Drop)]
pub(crate) struct Desk<'a, R, O: Object, G> {
    pub(crate) rt: &'a R,
    pub(crate) alloc: Global,
    pub(crate) routes: &'a Routes,
    pub(crate) shared: &'a Shared<O>,
    pub(crate) pass: &'a mut Pass<O>,
    pub(crate) gate: &'a G,
    pub(crate) worker: u32,
    // How many requests of the link came to the gate.
    pub(crate) calls: u64,
}

impl<R: Wait, O: Object<Ask = Ask, Reply = Reply>, G: Gate> Desk<'_, R, O, G> {
    /// Asks the graph, once the gate lets the worker pass, and answers with its reply.
    fn answer_of_graph(&mut self, ask: &Ask) -> Result<Answer, Trouble>
        requires sound { IsSoundAsk ask.now }
        requires own { IsPassOf self.old.shared.now self.old.pass.now }
        requires graph { AnswersAsGraph O.sound O.allowed }
        ensures asked { IsAsked (DeskGoesOn O.state O.sound O.allowed O.follows)
            self.old ask.now self.new result }
        ensures own { IsPassOf self.new.shared.now self.new.pass.now }
        ensures writable { IfOk result (λ answer. IsWritable answer.response) }
    {
        self.calls = self.calls.saturating_add(1);
        self.gate.pass(self.rt, self.worker, self.calls);
        let Ok(reply) = self.shared.call(self.rt, self.pass, ask) else {
            return Err(Trouble::NoEntry);
        };
        let answer = answer_of_reply(self.alloc, &reply);
        drop(reply);
        answer
    }
}

impl<R: Wait, O: Object<Ask = Ask, Reply = Reply>, G: Gate> Service for Desk<'_, R, O, G> {
    ghost use Rattle.one_history.specs.Passes.{IsPassOf};
    ghost use Rattle.graph_server.specs.Entries.{Entry, own_response, enters};
    ghost use Rattle.graph_server.specs.Links.{AnswersAsGraph};
    ghost use Rattle.graph_server.specs.Machinery.Calling.{DeskGoesOn, desk_stays, desk_trans};

    ghost Entry = { Entry };

    ghost own = { own_response };

    ghost enters = { enters };

    ghost goes = { DeskGoesOn O.state O.sound O.allowed O.follows };

    ghost ready = { λ s. IsPassOf s.shared.now s.pass.now × AnswersAsGraph O.sound O.allowed };

    ghost stays = { desk_stays O.state O.sound O.allowed O.follows };

    ghost goes_on = { desk_trans O.state O.sound O.allowed O.follows };

    /// Makes the ask of the request before the gate and the graph's lock, and answers it, or answers with the refusal that the
    /// request's own bytes decide, which asks the graph nothing.
    fn answer(&mut self, request: &Request) -> Result<Answer, Trouble> {
        prepared_is_right();
        let Ok(prepared) = self.routes.ask_of(request) else {
            return Err(Trouble::NoEntry);
        };
        match prepared {
            Prepared::Own(refusal) => {
                let answer = answer_of_refusal(self.alloc, &refusal);
                drop(refusal);
                answer
            }
            Prepared::Ask(ask) => {
                let answer = self.answer_of_graph(&ask);
                drop(ask);
                answer
            }
        }
    }
}
