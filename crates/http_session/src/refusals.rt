//! The replies that a session makes by itself.

ghost use Rattle.std.specs.Prelude.{◌≡◌, ℕ, ◌≤◌, ◌≢◌, List, IfOk, IsSome};
ghost use Rattle.std.specs.Io.KnownBytes.{Appends};
ghost use Rattle.dt_base.specs.Faults.{Rose};
ghost use Rattle.http_ends.specs.Replies.{phrase_of};
ghost use Rattle.http_session.specs.declared.ends.SessionEnd.TheVariants.{WriteFault};
ghost use Rattle.http_session.specs.Refusals.{error, unavailable};
ghost use Rattle.http_session.specs.Sessions.{EndsFor, IsWritten};
ghost use Rattle.http_session.specs.Turns.{RefusesSession};

use crate::SessionEnd;
use dt_base::{List, OutOfMemory, Sink, write_all};
use http_ends::{HttpEnd, Response, SendEnd, write_response};
use std::alloc::Global;

/// That no memory was found.
const UNAVAILABLE: &[u8] =
    b"HTTP/1.1 503 Service Unavailable\r\nContent-Length: 32\r\nContent-Type: application/json\r\nConnection: close\r\n\r\n{\"error\":{\"code\":\"OutOfMemory\"}}";

/// Writes, as far as the sink takes it, that no memory was found. It takes no memory.
pub fn give_up<K: Sink>(sink: &mut K)
    ensures wrote { (out : List ℕ) × Appends (K.taken sink.old) (K.taken sink.new) out × IsWritten (Rose (K.faults sink.old) (K.faults sink.new)) unavailable out }
    ensures count { K.faults sink.old ≤ K.faults sink.new }
    ensures beside { K.aside sink.new ≡ K.aside sink.old }
{
    match write_all(sink, UNAVAILABLE) {
        Ok(()) => {}
        Err(_) => {}
    }
}

fn make_error(alloc: Global, status: u16, body: &[u8]) -> Result<Response, OutOfMemory>
    ensures { IfOk result (λ response. response ≡ error status body.now) }
{
    Ok(Response {
        status,
        allow: None,
        body: List::from_vec(Vec::from_slice(alloc, body)?),
    })
}

/// Writes a closing refusal.
fn refuse<K: Sink>(alloc: Global, sink: &mut K, status: u16, body: &[u8]) -> SessionEnd
    requires status { IsSome (phrase_of status) }
    requires other { (status ≢ 204) × (status ≢ 405) }
    ensures refuses { RefusesSession (Rose (K.faults sink.old) (K.faults sink.new)) (K.taken sink.old) (K.taken sink.new) (error status body.now) result }
    ensures cause { result ≡ WriteFault → Rose (K.faults sink.old) (K.faults sink.new) }
    ensures count { K.faults sink.old ≤ K.faults sink.new }
    ensures beside { K.aside sink.new ≡ K.aside sink.old }
{
    let Ok(response) = make_error(alloc, status, body) else {
        give_up(sink);
        return SessionEnd::OutOfMemory;
    };
    match write_response(alloc, sink, &response, true, false) {
        Ok(()) => SessionEnd::Refused,
        Err(SendEnd::WriteFault) => SessionEnd::WriteFault,
        Err(SendEnd::OutOfMemory) => {
            give_up(sink);
            SessionEnd::OutOfMemory
        }
    }
}

/// Ends a session in place of a request, for this cause.
pub(crate) fn end_for<K: Sink>(alloc: Global, sink: &mut K, cause: HttpEnd) -> SessionEnd
    ensures ends { (out : List ℕ) × Appends (K.taken sink.old) (K.taken sink.new) out × EndsFor (Rose (K.faults sink.old) (K.faults sink.new)) result cause out }
    ensures cause { result ≡ WriteFault → Rose (K.faults sink.old) (K.faults sink.new) }
    ensures count { K.faults sink.old ≤ K.faults sink.new }
    ensures beside { K.aside sink.new ≡ K.aside sink.old }
{
    match cause {
        HttpEnd::Closed => SessionEnd::Closed,
        HttpEnd::ReadFault => SessionEnd::ReadFault,
        HttpEnd::OutOfMemory => {
            give_up(sink);
            SessionEnd::OutOfMemory
        }
        HttpEnd::BadHead => refuse(alloc, sink, 400, b"{\"error\":{\"code\":\"BadHead\"}}"),
        HttpEnd::CutOff => refuse(alloc, sink, 400, b"{\"error\":{\"code\":\"CutOff\"}}"),
        HttpEnd::TransferCoding => refuse(
            alloc,
            sink,
            501,
            b"{\"error\":{\"code\":\"TransferCoding\"}}",
        ),
        HttpEnd::BodyTooLong => refuse(
            alloc,
            sink,
            413,
            b"{\"error\":{\"code\":\"BodyTooLong\",\"limit\":4194304}}",
        ),
    }
}
