//! A session over a link, with a graph that threads share.

ghost use Rattle.std.specs.Prelude.{◌≡◌, ◌≤◌};
ghost use Rattle.dt_base.specs.Faults.{Rose};
ghost use Rattle.http_session.specs.declared.ends.SessionEnd.TheVariants.{ReadFault, WriteFault};
ghost use Rattle.one_history.specs.Histories.{IsHistory};
ghost use Rattle.one_history.specs.Passes.{seen, number, opening, IsPassOf, IsSamePass};
ghost use Rattle.graph_server.specs.Links.{AnswersAsGraph, IsLinkSession};

use crate::desk::Desk;
use connections::Gate;
use dt_base::{Link, Object};
use graph_asks::{Ask, Reply};
use graph_routes::Routes;
use http_session::SessionEnd;
use one_history::{Pass, Shared};
use std::alloc::Global;
use std::sync::Wait;

/// Answers the HTTP session of a link, with a graph that threads share.
///
/// Each request is answered in its order, as `http_session::serve_link` says: by its own refusal, or by the next call of the
/// pass, which stands in the one history of all calls. The ask of a request is made before its call waits for anything, and the
/// gate is passed before each call.
pub fn serve_link<R: Wait, O: Object<Ask = Ask, Reply = Reply>, L: Link, G: Gate>(
    rt: &R,
    alloc: Global,
    routes: &Routes,
    shared: &Shared<O>,
    pass: &mut Pass<O>,
    gate: &G,
    worker: u32,
    link: &mut L,
) -> SessionEnd
    requires own { IsPassOf shared.now pass.old }
    requires graph { AnswersAsGraph O.sound O.allowed }
    ensures own { IsPassOf shared.now pass.new × IsSamePass pass.old pass.new }
    ensures session { IsLinkSession
        (Rose (L.Sink.faults link.old) (L.Sink.faults link.new)) result
        (number pass.old) (seen pass.old) (seen pass.new)
        (L.Source.left link.old) (L.Source.left link.new)
        (L.Sink.taken link.old) (L.Sink.taken link.new) }
    ensures history { IsHistory O.sound O.allowed O.follows (O.state (opening shared.now)) (seen pass.old)
        → IsHistory O.sound O.allowed O.follows (O.state (opening shared.now)) (seen pass.new) }
    ensures read_cause { result ≡ ReadFault
        → Rose (L.Source.faults link.old) (L.Source.faults link.new) }
    ensures write_cause { result ≡ WriteFault
        → Rose (L.Sink.faults link.old) (L.Sink.faults link.new) }
    ensures count { L.Sink.faults link.old ≤ L.Sink.faults link.new }
{
    let mut desk = Desk {
        rt,
        alloc,
        routes,
        shared,
        pass,
        gate,
        worker,
        calls: 0,
    };
    http_session::serve_link(alloc, &mut desk, link)
}
