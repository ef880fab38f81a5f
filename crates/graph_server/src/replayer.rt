//! Who answers the requests of a replay.

ghost use Rattle.std.specs.Prelude.{◌≡◌, IfOk};
ghost use Rattle.graph_steps.specs.held.Held.{state_of};
ghost use Rattle.graph_steps.specs.Soundness.{IsSoundAsk};
ghost use Rattle.graph_steps.specs.States.{empty};
ghost use Rattle.http_ends.specs.Replies.{IsWritable};
ghost use Rattle.graph_server.specs.Entries.{IsLegalHistory};
ghost use Rattle.graph_server.specs.Machinery.Asking.{IsAsked};
ghost use Rattle.graph_server.specs.declared.replayer.Replayer.{Replayer};

use crate::answers::{answer_of_refusal, answer_of_reply};
use dt_base::{Object, OutOfMemory};
use graph_asks::Ask;
use graph_machine::Machine;
use graph_routes::{Prepared, Routes, prepared_is_right};
use http_ends::Request;
use http_session::{Answer, Service, Trouble};
use std::alloc::Global;

/// A graph of its own, and the routes to it.
#[derive(Drop)]
pub struct Replayer {
    alloc: Global,
    routes: Routes,
    machine: Machine,
}

impl Replayer {
    /// The empty graph. Fails only for want of memory.
    pub fn new(alloc: Global) -> Result<Replayer, OutOfMemory>
        ensures { IfOk result (λ replayer. state_of replayer.machine ≡ empty) }
    {
        Ok(Replayer {
            alloc,
            routes: Routes::new(alloc)?,
            machine: Machine::new(alloc),
        })
    }

    /// Asks the graph, and answers with its reply.
    fn answer_of_graph(&mut self, ask: &Ask) -> Result<Answer, Trouble>
        requires { IsSoundAsk ask.now }
        ensures asked { IsAsked (λ (s : Replayer) es t. IsLegalHistory (state_of s.machine) es (state_of t.machine)) self.old ask.now self.new result }
        ensures writable { IfOk result (λ answer. IsWritable answer.response) }
    {
        let Ok(reply) = self.machine.step(ask) else {
            return Err(Trouble::NoEntry);
        };
        let answer = answer_of_reply(self.alloc, &reply);
        drop(reply);
        answer
    }
}

impl Service for Replayer {
    ghost use Rattle.std.specs.Prelude.{refl};
    ghost use Rattle.graph_steps.specs.held.Held.{state_of};
    ghost use Rattle.http_session.specs.Legal.{legal_trans};
    ghost use Rattle.graph_server.specs.Entries.{Entry, own_response, enters, allows, follows_entry, IsLegalHistory};

    ghost Entry = { Entry };

    ghost own = { own_response };

    ghost enters = { enters };

    ghost goes = { λ s es t. IsLegalHistory (state_of s.machine) es (state_of t.machine) };

    ghost stays = { λ s. refl };

    ghost goes_on = { λ s t u es fs first rest. legal_trans allows follows_entry (state_of s.machine) (state_of t.machine) (state_of u.machine) es fs first rest };

    /// Makes the ask of the request and answers it, or answers with the refusal that the request's own bytes decide.
    fn answer(&mut self, request: &Request) -> Result<Answer, Trouble> {
        prepared_is_right();
        let Ok(prepared) = self.routes.ask_of(request) else {
            return Err(Trouble::NoEntry);
        };
        match prepared {
            Prepared::Own(refusal) => {
                let answer = answer_of_refusal(self.alloc, &refusal);
                drop(refusal);
                answer
            }
            Prepared::Ask(ask) => {
                let answer = self.answer_of_graph(&ask);
                drop(ask);
                answer
            }
        }
    }
}
