//! The parts of a graph, lent.

ghost use Rattle.std.specs.Prelude.{◌≡◌, IfSome, length, true};
ghost use Rattle.std.specs.List.{AllByRecursion};
ghost use Rattle.std.specs.Option.{is_some, option_copied, option_map};
ghost use Rattle.graph_steps.specs.bodies.Kept.{twin_view, IsKeptTwin, IsKeptLink};
ghost use Rattle.graph_steps.specs.LinkAsks.{link_at};
ghost use Rattle.graph_steps.specs.States.{graph_bytes, interface_of, is_live, link_text, twin_at};
ghost use Rattle.graph_steps.specs.Typed.{WellTyped};
ghost use Rattle.graph_steps.specs.held.Held.{holding, state_of, twin_of, link_of, IsHeldTwin, IsHeldLink, IsHeldRight};

use crate::held::stored::Stored;
use crate::twins::{Held, Twins};
use dt_base::Text;
use dt_base::names::Dtmi;
use dtdl_terms::Interface;
use model_life::Models;
use rel_graph::{Edge, Rels};
use std::alloc::Global;
use std::marker::Model;
use twin_value::Twin;

/// The models, the twins and the relationships of a graph, lent, which contracts see as these in their order; `state_of` is
/// the state of it.
#[derive(Drop)]
pub struct Lent<'a> {
    alloc: Global,
    models: &'a Models,
    twins: &'a Twins,
    links: &'a Rels<Stored>,
    link_bytes: u64,
}

impl<'a> Model for Lent<'a> {
    ghost use Rattle.graph_steps.specs.held.Held.{Holding};
    ghost use Rattle.graph_steps.specs.held.Machinery.Codes.{holding_code};
    ghost use Rattle.graph_steps.specs.held.Held.{holding, IsHeldRight};

    ghost Value = { Holding };

    ghost coded = { holding_code };

    ghost view = { λ l. holding l.models.now l.twins.now l.links.now };

    ghost invariant = { λ l. IsHeldRight (holding l.models.now l.twins.now l.links.now) l.link_bytes };
}

impl<'a> Lent<'a> {
    /// Lends these, with the sum of the relationships' sizes.
    pub fn new(
        alloc: Global,
        models: &'a Models,
        twins: &'a Twins,
        links: &'a Rels<Stored>,
        link_bytes: u64,
    ) -> Lent<'a>
        requires { IsHeldRight (holding models.now twins.now links.now) link_bytes }
        ensures { result ≡ holding models.now twins.now links.now }
    {
        Lent {
            alloc,
            models,
            twins,
            links,
            link_bytes,
        }
    }

    /// What holds of all that is lent: each twin and relationship can be printed, and its size is that of its text.
    pub fn right(&self)
        ensures twins { AllByRecursion IsHeldTwin self.now.twins }
        ensures links { AllByRecursion IsHeldLink self.now.links }
    {
        let _bytes = self.link_bytes;
    }

    /// Where memory comes from.
    pub fn alloc(&self) -> Global {
        self.alloc
    }

    /// The models.
    pub fn models(&self) -> &'a Models
        ensures { result.now ≡ self.now.models }
    {
        self.models
    }

    /// The twins.
    pub fn twins(&self) -> &'a Twins
        ensures { result.now ≡ self.now.twins }
    {
        self.twins
    }

    /// The relationships.
    pub fn links(&self) -> &'a Rels<Stored>
        ensures { result.now ≡ self.now.links }
    {
        self.links
    }

    /// How many bytes the texts of all twins and relationships have together. Takes no memory.
    pub fn bytes(&self) -> u64
        requires { WellTyped (state_of self.now) }
        ensures { result ≡ graph_bytes (state_of self.now) }
    {
        self.twins.bytes() + self.link_bytes
    }

    /// The twin with an id. Takes no memory.
    pub fn twin(&self, id: &Text) -> Option<&'a Twin>
        ensures at { option_map twin_view (option_copied result) ≡ twin_at id.now (state_of self.now) }
        ensures kept { IfSome (option_copied result) (λ t. IsKeptTwin (twin_view t)) }
    {
        self.twins.get(id)
    }

    /// The twin with an id, and how many bytes its text has. Takes no memory.
    pub fn held(&self, id: &Text) -> Option<&'a Held>
        ensures at { option_map twin_of (option_copied result) ≡ twin_at id.now (state_of self.now) }
        ensures held { IfSome (option_copied result) IsHeldTwin }
    {
        self.twins.held(id)
    }

    /// The relationship of a source with an id, which carries how many bytes its text has. Takes no memory.
    pub fn link(&self, source: &Text, id: &Text) -> Option<&'a Edge<Stored>>
        ensures at { option_map link_of (option_copied result) ≡ link_at source.now id.now (state_of self.now) }
        ensures kept { IfSome (option_copied result) (λ e. IsKeptLink (link_of e)) }
        ensures size { IfSome (option_copied result) (λ e. e.payload.bytes ≡ length (link_text (link_of e))) }
    {
        self.links.get(source, id)
    }

    /// The interface of the model with an identifier. Takes no memory.
    pub fn interface(&self, model: &Dtmi) -> Option<&'a Interface>
        ensures { option_copied result ≡ interface_of (state_of self.now) model.now }
    {
        self.models.set().get(model)
    }

    /// Whether the model of a twin is there. Takes no memory.
    pub fn is_live(&self, twin: &Twin) -> bool
        ensures { result ≡ is_live (state_of self.now) (twin_view twin.now) }
    {
        self.interface(&twin.model).is_some()
    }
}
