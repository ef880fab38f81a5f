//! A session with a graph of its own.

ghost use Rattle.std.specs.Prelude.{◌≡◌, ◌≤◌, ℕ, List};
ghost use Rattle.std.specs.Io.KnownBytes.{Appends};
ghost use Rattle.dt_base.specs.Faults.{Rose};
ghost use Rattle.http_session.specs.declared.ends.SessionEnd.TheVariants.{ReadFault, WriteFault};
ghost use Rattle.graph_server.specs.Replays.{IsReplay};

use crate::laws::histories_are_typed;
use crate::replayer::Replayer;
use dt_base::{Sink, Source};
use graph_steps::empty_is_typed;
use http_session::{SessionEnd, give_up, serve};
use std::alloc::Global;
use std::mem::forget;

/// Answers the HTTP session that a source has, over a graph of its own that is empty at first, and writes the replies.
///
/// Each request is answered in its order, as `http_session::serve` says: by its own refusal, or by the next entry of one
/// legal history of the graph, in which every state is well typed. `SessionEnd` says why the session ended. A replay is meant to be the last thing that a program
/// does: what the graph holds is left to the system, which takes it back when the program ends. `ReadFault` and `WriteFault` come only where the
/// count of the source or of the sink rose.
pub fn replay<S: Source, K: Sink>(alloc: Global, source: &mut S, sink: &mut K) -> SessionEnd
    ensures replay { (out : List ℕ) × IsReplay (Rose (K.faults sink.old) (K.faults sink.new)) result (S.left source.old) (S.left source.new) out × Appends (K.taken sink.old) (K.taken sink.new) out }
    ensures read_cause { result ≡ ReadFault → Rose (S.faults source.old) (S.faults source.new) }
    ensures write_cause { result ≡ WriteFault → Rose (K.faults sink.old) (K.faults sink.new) }
    ensures read_count { S.faults source.old ≤ S.faults source.new }
    ensures write_count { K.faults sink.old ≤ K.faults sink.new }
    ensures beside_source { S.aside source.new ≡ S.aside source.old }
    ensures beside_sink { K.aside sink.new ≡ K.aside sink.old }
{
    histories_are_typed();
    empty_is_typed();
    let Ok(mut replayer) = Replayer::new(alloc) else {
        give_up(sink);
        return SessionEnd::OutOfMemory;
    };
    let end = serve(alloc, &mut replayer, source, sink);
    // To let go of each twin would take a twenty-fifth of the instructions of putting it.
    forget(replayer);
    end
}
