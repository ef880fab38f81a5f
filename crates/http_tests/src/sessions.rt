//! Worked rows of sessions, over sources and sinks in memory and a service that answers with the path.

ghost use Rattle.std.specs.Prelude.{◌≡◌, ℕ, List, [], ◌++◌, length, IfOk};
ghost use Rattle.http_session.specs.Uniqueness.{OneSession};
ghost use Rattle.http_tests.specs.Echoes.{echoed};

use crate::sources::{Watched, both, list_of, source_of};
use dt_base::{List, MemLink, MemSink, MemSource, OutOfMemory};
use http_ends::{Request, Response};
use http_session::{Answer, Rules, Service, SessionEnd, Trouble, one_session, serve, serve_link};
use std::alloc::Global;
use std::test::Fail;

/// Answers each `GET` and `HEAD` with its path, and leaves the path's length as an entry. Another method is answered by
/// its own bytes. It finds no memory before the entry at `/before`, and none after it at `/after`.
#[derive(Drop)]
struct Echo {
    alloc: Global,
    entries: List<usize>,
}

fn reply(alloc: Global, status: u16, body: &[u8]) -> Result<Response, OutOfMemory>
    ensures { IfOk result (λ r. r ≡ echoed status body.now) }
{
    Ok(Response {
        status,
        allow: None,
        body: List::from_vec(Vec::from_slice(alloc, body)?),
    })
}

impl Service for Echo {
    ghost use Rattle.std.proofs.Common.{append-nil, append_assoc, ap, sym, ◌∙◌};

    ghost Entry = { ℕ };

    ghost own = { λ request response. response ≡ echoed 404 [] };

    ghost enters = { λ request entry response. (entry ≡ length request.path) × (response ≡ echoed 200 request.path) };

    ghost goes = { λ s es t. t.entries ≡ s.entries ++ es };

    ghost stays = { λ s. sym (append-nil s.entries) };

    ghost goes_on = { λ s t u es fs h k. k ∙ ap (λ xs. xs ++ fs) h ∙ append_assoc s.entries es fs };

    fn answer(&mut self, request: &Request) -> Result<Answer, Trouble> {
        let method = request.method.as_str();
        if method != "GET" && method != "HEAD" {
            let Ok(response) = reply(self.alloc, 404, b"") else {
                return Err(Trouble::NoEntry);
            };
            return Ok(Answer {
                response,
                entered: false,
            });
        }
        let path = request.path.as_str();
        if path == "/before" {
            return Err(Trouble::NoEntry);
        }
        let Ok(()) = self.entries.push(path.len()) else {
            return Err(Trouble::NoEntry);
        };
        if path == "/after" {
            return Err(Trouble::EntryInHand);
        }
        match reply(self.alloc, 200, path.as_bytes()) {
            Ok(response) => Ok(Answer {
                response,
                entered: true,
            }),
            Err(_) => Err(Trouble::EntryInHand),
        }
    }
}

/// What the service answers with, from state to state.
struct EchoRules;

impl Rules for EchoRules {
    ghost State = { Unit {0} };

    ghost Entry = { ℕ };

    ghost own = { λ request response. response ≡ echoed 404 [] };

    ghost enters = { λ request entry response. (entry ≡ length request.path) × (response ≡ echoed 200 request.path) };

    ghost allowed = { λ s e. Unit {0} };

    ghost follows = { λ s e. tt };

    ghost same = { λ e f. e ≡ f };
}

/// The law of sessions at this service.
fn has_one_session()
    ensures { OneSession ⟦<EchoRules as Rules>⟧.own ⟦<EchoRules as Rules>⟧.enters ⟦<EchoRules as Rules>⟧.allowed ⟦<EchoRules as Rules>⟧.follows ⟦<EchoRules as Rules>⟧.same }
{
    one_session::<EchoRules>()
}

/// What a session is expected to come to: its end, what is written, and the entries of the service.
type Expected = (SessionEnd, &'static str, &'static [usize]);

fn new_echo(alloc: Global) -> Echo {
    Echo {
        alloc,
        entries: List::new(alloc),
    }
}

/// Whether a session came to what was expected. The service is let go.
fn came_to(end: SessionEnd, text: &[u8], echo: Echo, expected: Expected) -> bool {
    let (wanted, written, entries) = expected;
    let is_so = end == wanted && text == written.as_bytes() && echo.entries.as_slice() == entries;
    drop(echo);
    is_so
}

/// Whether the session of a source and a sink comes to what is expected.
fn is_served(alloc: Global, source: MemSource, sink: MemSink, expected: Expected) -> bool {
    let (mut source, mut sink, mut echo) = (source, sink, new_echo(alloc));
    let end = serve(alloc, &mut echo, &mut source, &mut sink);
    let is_so = came_to(end, sink.taken(), echo, expected);
    drop((source, sink));
    is_so
}

/// Whether these bytes, which come in pieces of this size, lead to what is expected, where one read and one write fail and the
/// sink has this room.
fn serves(
    alloc: Global,
    bytes: &[u8],
    reads: (u64, u64),
    writes: (u64, u64),
    expected: Expected,
) -> Result<bool, OutOfMemory> {
    let (piece, failing_read) = reads;
    let (room, failing_write) = writes;
    let (source, failing) = both(
        source_of(alloc, bytes, failing_read, piece, piece),
        list_of(alloc, &[failing_write]),
    )?;
    let sink = MemSink::new(alloc, room, failing);
    Ok(is_served(alloc, source, sink, expected))
}

/// A link with these bytes to read, whose reads give at most as many as the pieces say and of whose calls one fails.
fn link_of(
    alloc: Global,
    bytes: &[u8],
    failing: u64,
    pieces: &[u64],
) -> Result<MemLink, OutOfMemory> {
    let lists = both(list_of(alloc, bytes), list_of(alloc, &[failing]));
    let ((bytes, failing), pieces) = both(lists, list_of(alloc, pieces))?;
    MemLink::new(alloc, bytes, 10_000, failing, pieces)
}

/// Whether these bytes lead to what is expected over a link.
fn serves_over_link(
    alloc: Global,
    bytes: &[u8],
    failing: u64,
    pieces: &[u64],
    expected: Expected,
) -> Result<bool, OutOfMemory> {
    let mut link = link_of(alloc, bytes, failing, pieces)?;
    let mut echo = new_echo(alloc);
    let end = serve_link(alloc, &mut echo, &mut link);
    let is_so = came_to(end, link.taken(), echo, expected);
    drop(link);
    Ok(is_so)
}

const OPEN_A: &str =
    "HTTP/1.1 200 OK\r\nContent-Length: 2\r\nContent-Type: application/json\r\n\r\n/a";

const SESSIONS: [(&[u8], Expected); 14] = [
    (b"", (SessionEnd::Closed, "", &[])),
    (
        b"GET /a HTTP/1.1\r\n\r\n",
        (SessionEnd::Closed, OPEN_A, &[2]),
    ),
    (
        b"GET /a HTTP/1.1\r\n\r\nGET /bc?d HTTP/1.1\r\nConnection: close\r\n\r\nGET /d HTTP/1.1\r\n\r\n",
        (
            SessionEnd::Closed,
            "HTTP/1.1 200 OK\r\nContent-Length: 2\r\nContent-Type: application/json\r\n\r\n/aHTTP/1.1 200 OK\r\nContent-Length: 3\r\nContent-Type: application/json\r\nConnection: close\r\n\r\n/bc",
            &[2, 3],
        ),
    ),
    (
        b"HEAD /a HTTP/1.1\r\n\r\nPUT /b HTTP/1.1\r\nContent-Length: 2\r\n\r\n{}HEAD /b HTTP/1.0\r\n\r\n",
        (
            SessionEnd::Closed,
            "HTTP/1.1 200 OK\r\nContent-Length: 2\r\nContent-Type: application/json\r\n\r\nHTTP/1.1 404 Not Found\r\nContent-Length: 0\r\nContent-Type: application/json\r\n\r\nHTTP/1.1 200 OK\r\nContent-Length: 2\r\nContent-Type: application/json\r\nConnection: close\r\n\r\n",
            &[2, 2],
        ),
    ),
    (
        b"GET /a HTTP/1.1\r\n\r\nPUT /b HTTP/1.1\r\nContent-Length: 3\r\n\r\n{}",
        (
            SessionEnd::Refused,
            "HTTP/1.1 200 OK\r\nContent-Length: 2\r\nContent-Type: application/json\r\n\r\n/aHTTP/1.1 400 Bad Request\r\nContent-Length: 27\r\nContent-Type: application/json\r\nConnection: close\r\n\r\n{\"error\":{\"code\":\"CutOff\"}}",
            &[2],
        ),
    ),
    (
        b"GET /a HTTP/1.1\r\n\r\n\r\n",
        (
            SessionEnd::Refused,
            "HTTP/1.1 200 OK\r\nContent-Length: 2\r\nContent-Type: application/json\r\n\r\n/aHTTP/1.1 400 Bad Request\r\nContent-Length: 28\r\nContent-Type: application/json\r\nConnection: close\r\n\r\n{\"error\":{\"code\":\"BadHead\"}}",
            &[2],
        ),
    ),
    (
        b"HEAD /a HTTP/1.1\r\nContent-Length: 4194305\r\n\r\n",
        (
            SessionEnd::Refused,
            "HTTP/1.1 413 Content Too Large\r\nContent-Length: 48\r\nContent-Type: application/json\r\nConnection: close\r\n\r\n{\"error\":{\"code\":\"BodyTooLong\",\"limit\":4194304}}",
            &[],
        ),
    ),
    (
        b"PUT /a HTTP/1.1\r\nTransfer-Encoding: chunked\r\n\r\n0\r\n\r\n",
        (
            SessionEnd::Refused,
            "HTTP/1.1 501 Not Implemented\r\nContent-Length: 35\r\nContent-Type: application/json\r\nConnection: close\r\n\r\n{\"error\":{\"code\":\"TransferCoding\"}}",
            &[],
        ),
    ),
    (
        b"GET /before HTTP/1.1\r\n\r\nGET /a HTTP/1.1\r\n\r\n",
        (
            SessionEnd::OutOfMemory,
            "HTTP/1.1 503 Service Unavailable\r\nContent-Length: 32\r\nContent-Type: application/json\r\nConnection: close\r\n\r\n{\"error\":{\"code\":\"OutOfMemory\"}}",
            &[],
        ),
    ),
    (
        b"GET /a HTTP/1.1\r\n\r\nGET /after HTTP/1.1\r\n\r\n",
        (SessionEnd::OutOfMemory, OPEN_A, &[2, 6]),
    ),
    (
        b"GET /a HTTP/1.0\r\n\r\n\r\n\r\n",
        (SessionEnd::Closed, CLOSING_A, &[2]),
    ),
    (
        b"GET / HTTP/9.9\r\n\r\n",
        (SessionEnd::Refused, BAD_HEAD, &[]),
    ),
    (
        b"\r\n\r\nGET /a HTTP/1.1\n\n",
        (SessionEnd::Closed, OPEN_A, &[2]),
    ),
    (b"G", (SessionEnd::Refused, BAD_HEAD, &[])),
];

const CLOSING_A: &str =
    "HTTP/1.1 200 OK\r\nContent-Length: 2\r\nContent-Type: application/json\r\nConnection: close\r\n\r\n/a";

const BAD_HEAD: &str =
    "HTTP/1.1 400 Bad Request\r\nContent-Length: 28\r\nContent-Type: application/json\r\nConnection: close\r\n\r\n{\"error\":{\"code\":\"BadHead\"}}";

const TWO_A: &[u8] = b"GET /a HTTP/1.1\r\n\r\nGET /a HTTP/1.1\r\n\r\n";

const TWO_OPEN: &str =
    "HTTP/1.1 200 OK\r\nContent-Length: 2\r\nContent-Type: application/json\r\n\r\n/aHTTP/1.1 200 OK\r\nContent-Length: 2\r\nContent-Type: application/json\r\n\r\n/a";

/// What is read in pieces of which size, which read fails, the room of the sink, and which write fails. The first of two requests has
/// 19 bytes, and each reply is one write.
const FAULTS: [(&[u8], (u64, u64), (u64, u64), Expected); 11] = [
    (TWO_A, (1, 1), (10_000, 0), (SessionEnd::ReadFault, "", &[])),
    (
        TWO_A,
        (1, 19),
        (10_000, 0),
        (SessionEnd::ReadFault, "", &[]),
    ),
    (
        TWO_A,
        (1, 20),
        (10_000, 0),
        (SessionEnd::ReadFault, OPEN_A, &[2]),
    ),
    (
        TWO_A,
        (1, 38),
        (10_000, 0),
        (SessionEnd::ReadFault, OPEN_A, &[2]),
    ),
    (
        TWO_A,
        (1, 39),
        (10_000, 0),
        (SessionEnd::ReadFault, TWO_OPEN, &[2, 2]),
    ),
    (
        TWO_A,
        (1000, 0),
        (10_000, 1),
        (SessionEnd::WriteFault, "", &[2]),
    ),
    (
        TWO_A,
        (1000, 0),
        (10_000, 2),
        (SessionEnd::WriteFault, OPEN_A, &[2, 2]),
    ),
    (
        TWO_A,
        (1000, 0),
        (10_000, 3),
        (SessionEnd::Closed, TWO_OPEN, &[2, 2]),
    ),
    (
        TWO_A,
        (1000, 0),
        (10, 0),
        (SessionEnd::WriteFault, "HTTP/1.1 2", &[2]),
    ),
    (
        b"G",
        (1000, 0),
        (10, 0),
        (SessionEnd::WriteFault, "HTTP/1.1 4", &[]),
    ),
    (
        b"GET /before HTTP/1.1\r\n\r\n",
        (1000, 0),
        (10, 0),
        (SessionEnd::OutOfMemory, "HTTP/1.1 5", &[]),
    ),
];

/// The position of the first session in pieces of this size that comes to something else, or none.
fn first_wrong(
    alloc: Global,
    sessions: &[(&[u8], Expected)],
    piece: u64,
) -> Result<Option<usize>, OutOfMemory> {
    for (at, (bytes, expected)) in sessions.iter().enumerate() {
        if !serves(alloc, bytes, (piece, 0), (10_000, 0), *expected)? {
            return Ok(Some(at));
        }
    }
    Ok(None)
}

#[test]
fn serves_in_any_pieces(rt: HostRuntime) -> Result<(), Fail> {
    for piece in [1, 2, 3, 7, 1000] {
        assert_eq!(rt; first_wrong(rt.alloc(), &SESSIONS, piece)?, None, "{piece}");
    }
    Ok(())
}

/// The position of the first session with a fault that comes to something else, or none.
fn first_wrong_fault(
    alloc: Global,
    faults: &[(&[u8], (u64, u64), (u64, u64), Expected)],
) -> Result<Option<usize>, OutOfMemory> {
    for (at, (bytes, reads, writes, expected)) in faults.iter().enumerate() {
        if !serves(alloc, bytes, *reads, *writes, *expected)? {
            return Ok(Some(at));
        }
    }
    Ok(None)
}

#[test]
fn ends_at_each_fault_and_where_there_is_no_room(rt: HostRuntime) -> Result<(), Fail> {
    assert_eq!(rt; first_wrong_fault(rt.alloc(), &FAULTS)?, None);
    Ok(())
}

/// The position of the first session over a link that comes to something else, or none.
fn first_wrong_over_link(
    alloc: Global,
    sessions: &[(&[u8], Expected)],
) -> Result<Option<usize>, OutOfMemory> {
    for (at, (bytes, expected)) in sessions.iter().enumerate() {
        if !serves_over_link(alloc, bytes, 0, &[5, 1, 40], *expected)? {
            return Ok(Some(at));
        }
    }
    Ok(None)
}

#[test]
fn serves_a_link(rt: HostRuntime) -> Result<(), Fail> {
    assert_eq!(rt; first_wrong_over_link(rt.alloc(), &SESSIONS)?, None);
    Ok(())
}

/// A request over a link of whose calls one fails, be it a read or a write.
const LINK_FAULTS: [(u64, Expected); 3] = [
    (1, (SessionEnd::ReadFault, "", &[])),
    (2, (SessionEnd::WriteFault, "", &[2])),
    (3, (SessionEnd::ReadFault, OPEN_A, &[2])),
];

#[test]
fn ends_at_each_fault_of_a_link(rt: HostRuntime) -> Result<(), Fail> {
    for (failing, expected) in LINK_FAULTS {
        let bytes = b"GET /a HTTP/1.1\r\n\r\n";
        assert!(rt; serves_over_link(rt.alloc(), bytes, failing, &[], expected)?);
    }
    Ok(())
}

/// Whether the session of a source and a sink comes to what is expected, with so many failed reads.
fn is_served_with(
    alloc: Global,
    source: MemSource,
    sink: MemSink,
    expected: Expected,
    faults: u64,
) -> bool {
    let (mut source, mut sink, mut echo) = (Watched::new(source), sink, new_echo(alloc));
    let end = serve(alloc, &mut echo, &mut source, &mut sink);
    let is_so = came_to(end, sink.taken(), echo, expected) && source.faults == faults;
    drop((source, sink));
    is_so
}

/// Whether these bytes lead to what is expected, with so many failed reads, where they come in pieces of this size and this
/// read fails.
fn serves_with(
    alloc: Global,
    bytes: &[u8],
    reads: (u64, u64),
    expected: Expected,
    faults: u64,
) -> Result<bool, OutOfMemory> {
    let (piece, failing) = reads;
    let source = source_of(alloc, bytes, failing, piece, piece)?;
    let sink = MemSink::new(alloc, 10_000, List::new(alloc));
    Ok(is_served_with(alloc, source, sink, expected, faults))
}

/// Sessions of which the read behind the last byte fails, and how many reads have failed at their end: none where the last
/// reply is a closing one, be it that of a request or a refusal.
const BEFORE_FAULTS: [(&[u8], Expected, u64); 6] = [
    (
        b"GET /a HTTP/1.1\r\nConnection: close\r\n\r\n",
        (SessionEnd::Closed, CLOSING_A, &[2]),
        0,
    ),
    (
        b"GET /a HTTP/1.0\r\n\r\n",
        (SessionEnd::Closed, CLOSING_A, &[2]),
        0,
    ),
    (
        b"PUT /a HTTP/1.1\r\nConnection: close\r\nContent-Length: 2\r\n\r\n{}",
        (
            SessionEnd::Closed,
            "HTTP/1.1 404 Not Found\r\nContent-Length: 0\r\nContent-Type: application/json\r\nConnection: close\r\n\r\n",
            &[],
        ),
        0,
    ),
    (
        b"PUT /a HTTP/1.1\r\nContent-Length: 4194305\r\n\r\n",
        (
            SessionEnd::Refused,
            "HTTP/1.1 413 Content Too Large\r\nContent-Length: 48\r\nContent-Type: application/json\r\nConnection: close\r\n\r\n{\"error\":{\"code\":\"BodyTooLong\",\"limit\":4194304}}",
            &[],
        ),
        0,
    ),
    (
        b"PUT /a HTTP/1.1\r\nTransfer-Encoding: chunked\r\n\r\n",
        (
            SessionEnd::Refused,
            "HTTP/1.1 501 Not Implemented\r\nContent-Length: 35\r\nContent-Type: application/json\r\nConnection: close\r\n\r\n{\"error\":{\"code\":\"TransferCoding\"}}",
            &[],
        ),
        0,
    ),
    (
        b"GET /a HTTP/1.1\r\n\r\n",
        (SessionEnd::ReadFault, OPEN_A, &[2]),
        1,
    ),
];

/// The position of the first of these sessions that comes to something else, or none. The bytes come one by one or, with
/// `whole`, all at once.
fn first_wrong_before_fault(
    alloc: Global,
    sessions: &[(&[u8], Expected, u64)],
    whole: bool,
) -> Result<Option<usize>, OutOfMemory> {
    for (at, (bytes, expected, faults)) in sessions.iter().enumerate() {
        let size = bytes.len() as u64;
        let reads = if whole {
            (size, 2)
        } else {
            (1, size.saturating_add(1))
        };
        if !serves_with(alloc, bytes, reads, *expected, *faults)? {
            return Ok(Some(at));
        }
    }
    Ok(None)
}

#[test]
fn reads_nothing_behind_a_closing_reply(rt: HostRuntime) -> Result<(), Fail> {
    for whole in [true, false] {
        assert_eq!(rt;
            first_wrong_before_fault(rt.alloc(), &BEFORE_FAULTS, whole)?,
            None,
            "{whole}"
        );
    }
    Ok(())
}
