//! Twins and relationships that were judged, and come.

ghost use Rattle.std.specs.Prelude.{◌≡◌, OnErr, OnOk};
ghost use Rattle.std.specs.Option.{option_map, unwrap_or};
ghost use Rattle.graph_steps.specs.bodies.Kept.{twin_view};
ghost use Rattle.graph_steps.specs.LinkAsks.{with_link};
ghost use Rattle.graph_steps.specs.States.{with_twin};
ghost use Rattle.graph_steps.specs.Typed.{WellTyped};
ghost use Rattle.graph_steps.specs.held.Held.{state_of, link_of, IsHeldTwin, IsHeldLink};

use crate::machine::Machine;
use dt_base::OutOfMemory;
use graph_steps::held::Stored;
use rel_graph::Edge;
use twin_value::Twin;

/// How many bytes the text of a relationship has, where there is one.
fn bytes_of(edge: &Option<Edge<Stored>>) -> u64
    ensures { result ≡ unwrap_or (option_map (λ e. e.payload.bytes) edge.now) 0 }
{
    match edge {
        Some(edge) => edge.payload.bytes,
        None => 0,
    }
}

impl Machine {
    /// Takes a twin, whose text has so many bytes, at its place or in place of the one with its id. `Err` is want of memory,
    /// and nothing changes.
    pub(crate) fn enter_twin(&mut self, twin: Twin, bytes: u64) -> Result<(), OutOfMemory>
        requires typed { WellTyped (with_twin (twin_view twin) (state_of self.old)) }
        requires held { IsHeldTwin (record { twin = twin; bytes = bytes }) }
        ensures ok { OnOk result (state_of self.new ≡ with_twin (twin_view twin) (state_of self.old)) }
        ensures err { OnErr result (self.new ≡ self.old) }
    {
        let Ok(_) = self.twins.put(twin, bytes) else {
            return Err(OutOfMemory);
        };
        Ok(())
    }

    /// Takes a relationship at its place or in place of the one with its source and id. `Err` is want of memory, and nothing
    /// changes.
    pub(crate) fn enter_link(&mut self, edge: Edge<Stored>) -> Result<(), OutOfMemory>
        requires typed { WellTyped (with_link (link_of edge) (state_of self.old)) }
        requires held { IsHeldLink edge }
        ensures ok { OnOk result (state_of self.new ≡ with_link (link_of edge) (state_of self.old)) }
        ensures err { OnErr result (self.new ≡ self.old) }
    {
        let bytes = edge.payload.bytes;
        match self.links.put(edge) {
            Ok(replaced) => {
                let rest = self.link_bytes.saturating_sub(bytes_of(&replaced));
                drop(replaced);
                self.link_bytes = rest + bytes;
                Ok(())
            }
            Err(edge) => {
                drop(edge);
                Err(OutOfMemory)
            }
        }
    }
}
