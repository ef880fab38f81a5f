//! Twins and relationships that are there.

ghost use Rattle.std.specs.Prelude.{◌≡◌, IfSome};
ghost use Rattle.std.specs.Option.{option_copied, option_map, is_some};
ghost use Rattle.graph_steps.specs.bodies.Kept.{twin_view, IsKeptTwin, IsKeptLink};
ghost use Rattle.graph_steps.specs.LinkAsks.{link_at};
ghost use Rattle.graph_steps.specs.States.{twin_at};
ghost use Rattle.graph_steps.specs.held.Held.{state_of, link_of};

use crate::machine::Machine;
use dt_base::Text;
use graph_steps::held::Stored;
use rel_graph::Edge;
use twin_value::Twin;

impl Machine {
    /// The twin with an id. Takes no memory.
    pub(crate) fn twin(&self, id: &Text) -> Option<&Twin>
        ensures at { option_map twin_view (option_copied result) ≡ twin_at id.now (state_of self.now) }
        ensures kept { IfSome (option_copied result) (λ t. IsKeptTwin (twin_view t)) }
    {
        self.twins.get(id)
    }

    /// The relationship of a source with an id. Takes no memory.
    pub(crate) fn link(&self, source: &Text, id: &Text) -> Option<&Edge<Stored>>
        ensures at { option_map link_of (option_copied result) ≡ link_at source.now id.now (state_of self.now) }
        ensures kept { IfSome (option_copied result) (λ e. IsKeptLink (link_of e)) }
    {
        self.links.get(source, id)
    }

    /// Whether there is a twin with an id. Takes no memory.
    pub(crate) fn has_twin(&self, id: &Text) -> bool
        ensures { result ≡ is_some (twin_at id.now (state_of self.now)) }
    {
        match self.twin(id) {
            Some(_) => true,
            None => false,
        }
    }

    /// Whether there is a relationship of a source with an id. Takes no memory.
    pub(crate) fn has_link(&self, source: &Text, id: &Text) -> bool
        ensures { result ≡ is_some (link_at source.now id.now (state_of self.now)) }
    {
        match self.link(source, id) {
            Some(_) => true,
            None => false,
        }
    }
}
