//! What a worker does with the links of its door.

ghost use Rattle.std.specs.Prelude.{◌≡◌, ◌+◌, ◌<◌, ◌≤◌};
ghost use Rattle.dt_base.specs.Faults.{Rose};
ghost use Rattle.one_history.specs.Histories.{IsHistory};
ghost use Rattle.one_history.specs.Passes.{seen, number, opening, IsPassOf, IsSamePass};
ghost use Rattle.graph_server.specs.Links.{AnswersAsGraph};
ghost use Rattle.graph_server.specs.Machinery.Turns.{IsVisit};
ghost use Rattle.graph_server.specs.Works.{IsWork, broken_at};

use crate::counts::Work;
use crate::links::serve_link;
use connections::{Door, Gate};
use dt_base::{Failed, Object};
use graph_asks::{Ask, Reply};
use graph_routes::Routes;
use http_session::SessionEnd;
use one_history::{Pass, Shared};
use std::alloc::Global;
use std::sync::Wait;

/// Serves a link and hands it back.
fn visit<R: Wait, O: Object<Ask = Ask, Reply = Reply>, G: Gate, D: Door>(
    rt: &R,
    alloc: Global,
    routes: &Routes,
    shared: &Shared<O>,
    pass: &mut Pass<O>,
    gate: &G,
    worker: u32,
    door: &mut D,
    link: D::Link,
) -> SessionEnd
    requires own { IsPassOf shared.now pass.old }
    requires graph { AnswersAsGraph O.sound O.allowed }
    requires fresh { D.Link.Source.faults link ≡ 0 }
    ensures own { IsPassOf shared.now pass.new × IsSamePass pass.old pass.new }
    ensures visit { IsVisit (number pass.old) (seen pass.old) (seen pass.new)
        (record {
          left = D.Link.Source.left link;
          taken = D.Link.Sink.taken link;
          faults = D.Link.Source.faults link;
        })
        (D.gone door.old) (D.gone door.new) result }
    ensures history { IsHistory O.sound O.allowed O.follows (O.state (opening shared.now)) (seen pass.old)
        → IsHistory O.sound O.allowed O.follows (O.state (opening shared.now)) (seen pass.new) }
    ensures broken { broken_at result ≡ 1 → Rose (D.lost door.old) (D.lost door.new) }
    ensures lost { D.lost door.old ≤ D.lost door.new }
    ensures ahead { D.ahead door.new ≡ D.ahead door.old }
    ensures left { D.left door.new ≡ D.left door.old }
    ensures count { D.faults door.new ≡ D.faults door.old }
{
    let mut link = link;
    let end = serve_link(rt, alloc, routes, shared, pass, gate, worker, &mut link);
    door.done(link);
    end
}

/// Takes the turns of a door until none is left. Each link is served as `serve_link` says and handed back; however its session
/// ends, the worker goes on.
pub fn work<R: Wait, O: Object<Ask = Ask, Reply = Reply>, G: Gate, D: Door>(
    rt: &R,
    alloc: Global,
    routes: &Routes,
    shared: &Shared<O>,
    pass: &mut Pass<O>,
    gate: &G,
    worker: u32,
    door: &mut D,
) -> Work
    requires own { IsPassOf shared.now pass.old }
    requires graph { AnswersAsGraph O.sound O.allowed }
    ensures own { IsPassOf shared.now pass.new × IsSamePass pass.old pass.new }
    ensures work { IsWork (number pass.old) (seen pass.old) (seen pass.new)
        (D.ahead door.old) (D.gone door.old) (D.gone door.new)
        result.links result.faults result.broken result.short }
    ensures history { IsHistory O.sound O.allowed O.follows (O.state (opening shared.now)) (seen pass.old)
        → IsHistory O.sound O.allowed O.follows (O.state (opening shared.now)) (seen pass.new) }
    ensures turns { result.links + result.faults ≡ D.left door.old }
    ensures ended { D.left door.new ≡ 0 }
    ensures failed { 0 < result.faults → Rose (D.faults door.old) (D.faults door.new) }
    ensures broken { 0 < result.broken → Rose (D.lost door.old) (D.lost door.new) }
{
    let mut work = Work {
        links: 0,
        faults: 0,
        broken: 0,
        short: 0,
    };
    'turns: loop {
        match door.next() {
            Ok(None) => return work,
            Ok(Some(link)) => {
                let end = visit(rt, alloc, routes, shared, pass, gate, worker, door, link);
                work.count(end);
            }
            Err(Failed) => work.faults += 1,
        }
    }
}
