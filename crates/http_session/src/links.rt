//! A session over a link.

ghost use Rattle.std.specs.Prelude.{◌≡◌, ◌≤◌, Some};
ghost use Rattle.dt_base.specs.Faults.{Rose};
ghost use Rattle.http_ends.specs.Streams.{stream_of};
ghost use Rattle.http_session.specs.declared.ends.SessionEnd.TheVariants.{ReadFault, WriteFault};
ghost use Rattle.http_session.specs.Turns.{world, Turns, Serves};

use crate::refusals::give_up;
use crate::session::{MOST_REPLIES, respond};
use crate::{Service, SessionEnd};
use dt_base::Link;
use http_ends::{Buffer, next_request};
use std::alloc::Global;

/// Reads and answers one request, and says why the session ends, if it does.
fn link_turn<D: Service, L: Link>(
    alloc: Global,
    service: &mut D,
    link: &mut L,
    buffer: &mut Buffer,
    last: bool,
) -> Option<SessionEnd>
    requires ready { D.ready service.old }
    ensures ready { D.ready service.new }
    ensures turn { Turns D.goes D.own D.enters (Rose (L.Sink.faults link.old) (L.Sink.faults link.new)) last (world (stream_of buffer.old (L.Source.left link.old)) (L.Sink.taken link.old) service.old) (world (stream_of buffer.new (L.Source.left link.new)) (L.Sink.taken link.new) service.new) (L.Source.left link.new) result }
    ensures read_cause { result ≡ Some ReadFault → Rose (L.Source.faults link.old) (L.Source.faults link.new) }
    ensures write_cause { result ≡ Some WriteFault → Rose (L.Sink.faults link.old) (L.Sink.faults link.new) }
    ensures count { L.Sink.faults link.old ≤ L.Sink.faults link.new }
{
    let next = next_request(alloc, link, buffer);
    respond(alloc, service, link, next, last)
}

/// Answers the requests of a link in their order, until the session ends, as `serve` answers those of a source and a
/// sink.
pub fn serve_link<D: Service, L: Link>(alloc: Global, service: &mut D, link: &mut L) -> SessionEnd
    requires ready { D.ready service.old }
    ensures ready { D.ready service.new }
    ensures session { Serves D.goes D.own D.enters (Rose (L.Sink.faults link.old) (L.Sink.faults link.new)) (world (L.Source.left link.old) (L.Sink.taken link.old) service.old) (world (L.Source.left link.new) (L.Sink.taken link.new) service.new) result }
    ensures read_cause { result ≡ ReadFault → Rose (L.Source.faults link.old) (L.Source.faults link.new) }
    ensures write_cause { result ≡ WriteFault → Rose (L.Sink.faults link.old) (L.Sink.faults link.new) }
    ensures count { L.Sink.faults link.old ≤ L.Sink.faults link.new }
{
    let Ok(mut buffer) = Buffer::new(alloc) else {
        give_up(link);
        return SessionEnd::OutOfMemory;
    };
    let mut replies = 0;
    'turns: loop {
        let last = replies + 1 == MOST_REPLIES;
        if let Some(end) = link_turn(alloc, service, link, &mut buffer, last) {
            return end;
        }
        replies += 1;
    }
}
