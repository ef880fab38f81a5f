//! The machine.

ghost use Rattle.std.specs.Prelude.{◌≡◌, length};
ghost use Rattle.graph_steps.specs.States.{empty};
ghost use Rattle.graph_steps.specs.Typed.{WellTyped};
ghost use Rattle.graph_steps.specs.held.Held.{state_of};

use graph_steps::held::Stored;
use graph_steps::twins::Twins;
use model_life::Models;
use model_life::resolution::Resolutions;
use rel_graph::Rels;
use std::alloc::Global;
use std::marker::Model;

/// A typed graph of digital twins (this project's own, after the graph of Azure Digital Twins), which contracts see as its
/// models, its twins and its relationships, each in their order; `state_of` is the state of it. Every machine is well typed
/// ([`Machine::typed`]).
#[derive(Drop)]
pub struct Machine {
    pub(crate) alloc: Global,
    pub(crate) models: Models,
    pub(crate) resolutions: Resolutions,
    pub(crate) twins: Twins,
    pub(crate) links: Rels<Stored>,
    pub(crate) link_bytes: u64,
}

impl Model for Machine {
    ghost use Rattle.graph_steps.specs.held.Held.{Holding};
    ghost use Rattle.graph_steps.specs.held.Machinery.Codes.{holding_code};
    ghost use Rattle.graph_steps.specs.held.Held.{holding, HoldsTogether};

    ghost Value = { Holding };

    ghost coded = { holding_code };

    ghost view = { λ m. holding m.models m.twins m.links };

    ghost invariant = { λ m. HoldsTogether (holding m.models m.twins m.links) m.resolutions m.link_bytes };
}

/// How much a graph holds.
#[derive(Clone, Copy, Debug, PartialEq, Eq)]
pub struct Counts {
    pub models: u64,
    pub twins: u64,
    pub relationships: u64,
}

impl Machine {
    /// The empty graph. Takes no memory.
    pub fn new(alloc: Global) -> Machine
        ensures { state_of result ≡ empty }
    {
        Machine {
            alloc,
            models: Models::new(alloc),
            resolutions: Resolutions::new(alloc),
            twins: Twins::new(alloc),
            links: Rels::new(alloc),
            link_bytes: 0,
        }
    }

    /// Every machine is well typed: its models together break no rule, and each is sound; its twins and relationships fit
    /// their models, where these are there; and no limit is passed.
    pub fn typed(&self)
        ensures { WellTyped (state_of self.now) }
    {
        let _bytes = self.link_bytes;
    }

    /// How many models, twins and relationships there are. Takes no memory.
    pub fn counts(&self) -> Counts
        ensures models { result.models ≡ length (state_of self.now).models }
        ensures twins { result.twins ≡ length (state_of self.now).twins }
        ensures relationships { result.relationships ≡ length (state_of self.now).links }
    {
        Counts {
            models: self.models.len(),
            twins: self.twins.len(),
            relationships: self.links.len(),
        }
    }
}
