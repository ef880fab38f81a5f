//! A graph that is made, and its counts.

ghost use Rattle.std.specs.Prelude.{◌≡◌, ◌≤◌, [], ◌∷◌, IfOk, OnOk};
ghost use Rattle.graph_steps.specs.held.Held.{state_of};
ghost use Rattle.graph_steps.specs.Soundness.{IsSoundAsk};
ghost use Rattle.graph_steps.specs.States.{empty};
ghost use Rattle.dtdl_cmd.specs.making.Machinery.{IsAskedOnce};
ghost use Rattle.dtdl_cmd.specs.making.Made.{Counts, HasCount, IsMade, IsMadeStep, RequestsLead};
ghost use Rattle.dtdl_cmd.specs.making.Requests.{link_requests, next_requests, put_has, put_room, put_sensor, requests, twin_requests};

use crate::making::requests::{post_models, put_contains, put_has, put_room, put_sensor};
use dt_base::{List, Object, OutOfMemory};
use graph_asks::Ask;
use graph_machine::Machine;
use graph_routes::{Prepared, Routes, prepared_is_right};
use http_ends::Request;
use query_eval::count;
use query_parse::read;
use query_terms::Projection;
use std::alloc::Global;
use std::mem::forget;

/// The queries of which the counts are printed.
const TWINS: &str = "SELECT COUNT() FROM DIGITALTWINS";

const RELATIONSHIPS: &str = "SELECT COUNT() FROM RELATIONSHIPS";

const SPACES: &str = "SELECT COUNT() FROM DIGITALTWINS WHERE IS_OF_MODEL('dtmi:demo:Space;1')";

const HOT: &str =
    "SELECT COUNT() FROM DIGITALTWINS r JOIN s RELATED r.hasSensor WHERE s.reading > 5";

/// A graph that is being made, and the routes to it.
#[derive(Drop)]
struct Maker {
    alloc: Global,
    routes: Routes,
    machine: Machine,
}

impl Maker {
    /// The empty graph.
    fn new(alloc: Global) -> Result<Maker, OutOfMemory>
        ensures { IfOk result (λ maker. state_of maker.machine ≡ empty) }
    {
        Ok(Maker {
            alloc,
            routes: Routes::new(alloc)?,
            machine: Machine::new(alloc),
        })
    }

    /// Takes a request. Its reply is not written.
    fn take(&mut self, request: &Request) -> Result<(), OutOfMemory>
        ensures { OnOk result (IsMadeStep (state_of self.old.machine) request.now (state_of self.new.machine)) }
    {
        prepared_is_right();
        let Ok(prepared) = self.routes.ask_of(request) else {
            return Err(OutOfMemory);
        };
        match prepared {
            Prepared::Own(refusal) => {
                drop(refusal);
                Ok(())
            }
            Prepared::Ask(ask) => {
                let taken = self.take_ask(&ask);
                drop(ask);
                taken
            }
        }
    }

    /// Asks the graph. Its reply is not written.
    fn take_ask(&mut self, ask: &Ask) -> Result<(), OutOfMemory>
        requires { IsSoundAsk ask.now }
        ensures { OnOk result (IsAskedOnce (state_of self.old.machine) ask.now (state_of self.new.machine)) }
    {
        let reply = self.machine.step(ask)?;
        drop(reply);
        Ok(())
    }

    /// Puts a room and its sensor.
    fn put_twins_of(&mut self, k: u32) -> Result<(), OutOfMemory>
        requires few { k ≤ 20000 }
        ensures { OnOk result (RequestsLead (state_of self.old.machine) (put_room k ∷ put_sensor k ∷ []) (state_of self.new.machine)) }
    {
        let room = put_room(self.alloc, k)?;
        self.take(&room)?;
        let sensor = put_sensor(self.alloc, k)?;
        self.take(&sensor)
    }

    /// Puts the rooms and their sensors.
    fn put_twins(&mut self, number: u32) -> Result<(), OutOfMemory>
        requires few { number ≤ 20000 }
        ensures { OnOk result (RequestsLead (state_of self.old.machine) (twin_requests number) (state_of self.new.machine)) }
    {
        let mut k = 0;
        'rooms: while k < number {
            k += 1;
            self.put_twins_of(k)?;
        }
        Ok(())
    }

    /// Puts the relationship to the next of these rooms, where there is one.
    fn put_next(&mut self, number: u32, k: u32) -> Result<(), OutOfMemory>
        requires few { k ≤ 20000 }
        ensures { OnOk result (RequestsLead (state_of self.old.machine) (next_requests number k) (state_of self.new.machine)) }
    {
        if k < number {
            let contains = put_contains(self.alloc, k)?;
            self.take(&contains)?;
        }
        Ok(())
    }

    /// Puts the relationships of a room.
    fn put_links_of(&mut self, number: u32, k: u32) -> Result<(), OutOfMemory>
        requires few { k ≤ 20000 }
        ensures { OnOk result (RequestsLead (state_of self.old.machine) (put_has k ∷ next_requests number k) (state_of self.new.machine)) }
    {
        let has = put_has(self.alloc, k)?;
        self.take(&has)?;
        self.put_next(number, k)
    }

    /// Puts the relationships of the rooms.
    fn put_links(&mut self, number: u32) -> Result<(), OutOfMemory>
        requires few { number ≤ 20000 }
        ensures { OnOk result (RequestsLead (state_of self.old.machine) (link_requests number number) (state_of self.new.machine)) }
    {
        let mut k = 0;
        'rooms: while k < number {
            k += 1;
            self.put_links_of(number, k)?;
        }
        Ok(())
    }

    /// Puts the models and all of so many rooms.
    fn put_all(&mut self, number: u32) -> Result<(), OutOfMemory>
        requires few { number ≤ 20000 }
        ensures { OnOk result (RequestsLead (state_of self.old.machine) (requests number) (state_of self.new.machine)) }
    {
        let models = post_models(self.alloc)?;
        self.take(&models)?;
        self.put_twins(number)?;
        self.put_links(number)
    }

    /// How many rows a query has that counts them. The texts above are such queries, so it fails only for want of memory.
    fn count_of(&self, text: &str) -> Result<u64, OutOfMemory>
        ensures { IfOk result (HasCount (state_of self.now.machine) text.now) }
    {
        let Ok(query) = read(self.alloc, text) else {
            return Err(OutOfMemory);
        };
        match query.select {
            Projection::Count => count(self.alloc, &self.machine, &query),
            Projection::Star { .. } | Projection::Items { .. } => Err(OutOfMemory),
        }
    }

    /// The lines of the counts.
    fn counts(&self) -> Result<List<u8>, OutOfMemory>
        ensures { IfOk result (Counts (state_of self.now.machine)) }
    {
        let twins = self.count_of(TWINS)?;
        let relationships = self.count_of(RELATIONSHIPS)?;
        let spaces = self.count_of(SPACES)?;
        let hot = self.count_of(HOT)?;
        let text = format!(in self.alloc;
            "twins {twins}\nrelationships {relationships}\nspaces {spaces}\nhot {hot}\n"
        )?;
        Ok(List::from_vec(text.into_bytes()))
    }
}

/// Makes a graph of so many rooms, at most 20,000, and gives the lines of its counts (this project's own): how many twins and
/// relationships there are, how many twins are spaces, and how many rooms have a sensor that reads more than 5.
///
/// Each room has a sensor, and contains the next one. All are put by the requests of a client, each of which the machine
/// answers in its order. Fails only for want of memory. It is meant to be the last thing that a program does: what the graph
/// holds is left to the system, which takes it back when the program ends.
pub fn make(alloc: Global, number: u32) -> Result<List<u8>, OutOfMemory>
    requires few { number ≤ 20000 }
    ensures { IfOk result (IsMade number) }
{
    let mut maker = Maker::new(alloc)?;
    maker.put_all(number)?;
    let lines = maker.counts();
    // To let go of each twin would take a twenty-fifth of the instructions of putting it.
    forget(maker);
    lines
}
