//! A session over a source and a sink.

ghost use Rattle.std.specs.Prelude.{◌≡◌, ◌≤◌, None, Some, IfOk, ◌||◌};
ghost use Rattle.dt_base.specs.Faults.{Rose};
ghost use Rattle.http_ends.specs.Streams.{stream_of};
ghost use Rattle.http_session.specs.declared.ends.SessionEnd.TheVariants.{ReadFault, WriteFault};
ghost use Rattle.http_session.specs.Answers.{RequestIsWithinLimits, is_head};
ghost use Rattle.http_session.specs.Turns.{world, Exchanges, Responds, Turns, Serves};

use crate::refusals::{end_for, give_up};
use crate::{Service, SessionEnd, Trouble};
use dt_base::{Sink, Source};
use http_ends::{Buffer, HttpEnd, Request, SendEnd, next_request, write_response};
use std::alloc::Global;

/// The most replies of a session.
pub(crate) const MOST_REPLIES: u64 = 1_000_000;

/// Whether the reply to a request is a closing one.
fn is_closing(request: &Request, last: bool) -> bool
    ensures { result ≡ request.now.close || last }
{
    request.close || last
}

/// Whether the head of the reply alone is asked for.
fn asks_head(request: &Request) -> bool
    ensures { result ≡ is_head request.now }
{
    request.method.as_str() == "HEAD"
}

/// Answers a request and writes the reply. `last` says that it is the last that may be written.
fn exchange<D: Service, K: Sink>(
    alloc: Global,
    service: &mut D,
    sink: &mut K,
    request: &Request,
    last: bool,
) -> Option<SessionEnd>
    requires within { RequestIsWithinLimits request.now }
    requires ready { D.ready service.old }
    ensures ready { D.ready service.new }
    ensures exchanges { Exchanges D.goes D.own D.enters (Rose (K.faults sink.old) (K.faults sink.new)) last request.now (world None (K.taken sink.old) service.old) (world None (K.taken sink.new) service.new) result }
    ensures cause { result ≡ Some WriteFault → Rose (K.faults sink.old) (K.faults sink.new) }
    ensures count { K.faults sink.old ≤ K.faults sink.new }
    ensures beside { K.aside sink.new ≡ K.aside sink.old }
{
    let answer = match service.answer(request) {
        Ok(answer) => answer,
        Err(Trouble::NoEntry) => {
            give_up(sink);
            return Some(SessionEnd::OutOfMemory);
        }
        Err(Trouble::EntryInHand) => return Some(SessionEnd::OutOfMemory),
    };
    let closing = is_closing(request, last);
    let head_only = asks_head(request);
    match write_response(alloc, sink, &answer.response, closing, head_only) {
        Ok(()) if request.close => Some(SessionEnd::Closed),
        Ok(()) if last => Some(SessionEnd::Full),
        Ok(()) => None,
        Err(SendEnd::WriteFault) => Some(SessionEnd::WriteFault),
        Err(SendEnd::OutOfMemory) if answer.entered => Some(SessionEnd::OutOfMemory),
        Err(SendEnd::OutOfMemory) => {
            give_up(sink);
            Some(SessionEnd::OutOfMemory)
        }
    }
}

/// Answers what came next.
pub(crate) fn respond<D: Service, K: Sink>(
    alloc: Global,
    service: &mut D,
    sink: &mut K,
    next: Result<Request, HttpEnd>,
    last: bool,
) -> Option<SessionEnd>
    requires within { IfOk next RequestIsWithinLimits }
    requires ready { D.ready service.old }
    ensures ready { D.ready service.new }
    ensures responds { Responds D.goes D.own D.enters (Rose (K.faults sink.old) (K.faults sink.new)) last next (world None (K.taken sink.old) service.old) (world None (K.taken sink.new) service.new) result }
    ensures cause { result ≡ Some WriteFault → Rose (K.faults sink.old) (K.faults sink.new) }
    ensures count { K.faults sink.old ≤ K.faults sink.new }
    ensures beside { K.aside sink.new ≡ K.aside sink.old }
{
    match next {
        Ok(request) => exchange(alloc, service, sink, &request, last),
        Err(cause) => Some(end_for(alloc, sink, cause)),
    }
}

/// Reads and answers one request, and says why the session ends, if it does.
fn turn<D: Service, S: Source, K: Sink>(
    alloc: Global,
    service: &mut D,
    source: &mut S,
    sink: &mut K,
    buffer: &mut Buffer,
    last: bool,
) -> Option<SessionEnd>
    requires ready { D.ready service.old }
    ensures ready { D.ready service.new }
    ensures turn { Turns D.goes D.own D.enters (Rose (K.faults sink.old) (K.faults sink.new)) last (world (stream_of buffer.old (S.left source.old)) (K.taken sink.old) service.old) (world (stream_of buffer.new (S.left source.new)) (K.taken sink.new) service.new) (S.left source.new) result }
    ensures read_cause { result ≡ Some ReadFault → Rose (S.faults source.old) (S.faults source.new) }
    ensures write_cause { result ≡ Some WriteFault → Rose (K.faults sink.old) (K.faults sink.new) }
    ensures read_count { S.faults source.old ≤ S.faults source.new }
    ensures write_count { K.faults sink.old ≤ K.faults sink.new }
    ensures beside_source { S.aside source.new ≡ S.aside source.old }
    ensures beside_sink { K.aside sink.new ≡ K.aside sink.old }
{
    let next = next_request(alloc, source, buffer);
    respond(alloc, service, sink, next, last)
}

/// Answers the requests of a source in their order, until the session ends.
///
/// Each request is answered by the service, in one write, and a request that cannot be read by a closing refusal. A reply
/// is closing where its request asks for it, and where it is the 1,000,000th; after a closing reply no further request is
/// read. Of the reply to a `HEAD` the head alone is written. `SessionEnd` says why the session ended. `ReadFault` and
/// `WriteFault` come only where the count of the source or of the sink rose.
pub fn serve<D: Service, S: Source, K: Sink>(
    alloc: Global,
    service: &mut D,
    source: &mut S,
    sink: &mut K,
) -> SessionEnd
    requires ready { D.ready service.old }
    ensures ready { D.ready service.new }
    ensures session { Serves D.goes D.own D.enters (Rose (K.faults sink.old) (K.faults sink.new)) (world (S.left source.old) (K.taken sink.old) service.old) (world (S.left source.new) (K.taken sink.new) service.new) result }
    ensures read_cause { result ≡ ReadFault → Rose (S.faults source.old) (S.faults source.new) }
    ensures write_cause { result ≡ WriteFault → Rose (K.faults sink.old) (K.faults sink.new) }
    ensures read_count { S.faults source.old ≤ S.faults source.new }
    ensures write_count { K.faults sink.old ≤ K.faults sink.new }
    ensures beside_source { S.aside source.new ≡ S.aside source.old }
    ensures beside_sink { K.aside sink.new ≡ K.aside sink.old }
{
    let Ok(mut buffer) = Buffer::new(alloc) else {
        give_up(sink);
        return SessionEnd::OutOfMemory;
    };
    let mut replies = 0;
    'turns: loop {
        let last = replies + 1 == MOST_REPLIES;
        if let Some(end) = turn(alloc, service, source, sink, &mut buffer, last) {
            return end;
        }
        replies += 1;
    }
}
