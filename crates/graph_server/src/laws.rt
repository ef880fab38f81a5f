//! Laws of replays. Each function does nothing but name laws, and its contract is the law.

ghost use Rattle.std.specs.Prelude.{List};
ghost use Rattle.http_session.specs.Uniqueness.{AreFunctions};
ghost use Rattle.graph_steps.specs.States.{State};
ghost use Rattle.graph_steps.specs.Typed.{WellTyped};
ghost use Rattle.graph_server.specs.Entries.{Entry, AreOneEntry, IsLegalHistory, allows, enters, follows_entry, own_response};
ghost use Rattle.graph_server.specs.Histories.{IsTypedHistory};
ghost use Rattle.graph_server.specs.Replays.{OneReplay};

use graph_answers::one_step;
use graph_routes::{one_prepared, prepared_is_right};
use graph_steps::invariants::{keeps_typed, stays_frozen};
use http_session::{Rules, one_session};

/// What requests are answered with by a graph.
struct GraphRules;

impl Rules for GraphRules {
    ghost use Rattle.graph_steps.specs.States.{State};
    ghost use Rattle.graph_server.specs.Entries.{Entry, AreOneEntry, own_response, enters, allows, follows_entry};

    ghost State = { State };

    ghost Entry = { Entry };

    ghost own = { own_response };

    ghost enters = { enters };

    ghost allowed = { allows };

    ghost follows = { follows_entry };

    ghost same = { AreOneEntry };
}

/// At each state of a graph a request has one response, and leaves one entry or none, but for where in memory the trees, patches
/// and queries of its ask lie.
pub fn one_answer()
    ensures { AreFunctions own_response enters allows follows_entry AreOneEntry }
{
    one_prepared();
    one_step();
    prepared_is_right();
}

/// In a legal history from a well-typed state every state is well typed, and the twins that an entry finds frozen stay as they
/// are through it, unless its ask drops them.
pub fn histories_are_typed()
    ensures { (s t : State) (es : List Entry) → WellTyped s → IsLegalHistory s es t → IsTypedHistory s es }
{
    keeps_typed();
    stays_frozen();
}

/// A stream that its bytes end has one replay: one history from the empty graph, but for where in memory the trees, patches
/// and queries of its asks lie, one end, and the same bytes are written.
pub fn one_replay()
    ensures { OneReplay }
{
    one_answer();
    one_session::<GraphRules>();
}
