//! Asks over a dial in memory: what is written, what is read, and why there is no reply.

ghost use Rattle.std.specs.Prelude.{◌≡◌, ◌<◌, ◌^◌, IfOk, IfSome};
ghost use Rattle.connections.specs.Turns.{IsFresh};

use connections::{MemDial, MemLink};
use dt_base::{List, OutOfMemory};
use http_client::{AskEnd, ask_over};
use http_ends::Response;
use std::alloc::Global;
use std::test::Fail;

/// The request that each of them writes.
const ASKED: &[u8] = b"GET /canon HTTP/1.1\r\nHost: localhost:8080\r\nConnection: close\r\n\r\n";

/// A reply of three bytes, with bytes behind it that nobody asked for.
const REPLY: &[u8] =
    b"HTTP/1.1 200 OK\r\nContent-Length: 3\r\nContent-Type: application/json\r\n\r\n[]\nHTTP";

/// A dial whose link has these bytes left and takes so many. Its call of this number fails, where there is one.
fn dial_to(alloc: Global, left: &[u8], room: u64, failing: u64) -> Result<MemDial, OutOfMemory> {
    let mut calls = List::new(alloc);
    calls.push(failing)?;
    let left = List::from_vec(Vec::from_slice(alloc, left)?);
    let link = MemLink::new(alloc, left, room, calls, List::new(alloc))?;
    Ok(MemDial::new(Some(link)))
}

/// What came of an ask: the status, and whether the body is as it should be, or why there is no reply.
fn told(answer: &Result<Response, AskEnd>) -> Result<(u16, bool), AskEnd> {
    match answer {
        Ok(response) => Ok((
            response.status,
            response.body.as_slice() == b"[]\n".as_slice(),
        )),
        Err(end) => Err(*end),
    }
}

/// Asks for the canonical text. Answers what came of it, how many bytes the link that was handed back has taken, whether
/// these are the first ones of the request, and its count of faults.
fn ask(
    alloc: Global,
    dial: &mut MemDial,
) -> (Result<(u16, bool), AskEnd>, Option<(usize, bool, u64)>) {
    let answer = ask_over(alloc, dial, "localhost", 8080, "GET", "/canon", None);
    let came = told(&answer);
    drop(answer);
    let Some((link, faults, _)) = dial.gone().last() else {
        return (came, None);
    };
    let taken = link.taken();
    (came, Some((taken.len(), ASKED.starts_with(taken), faults)))
}

/// What is left of the link, where it takes so many bytes and a call of it fails, where there is one; and what comes of it: the
/// answer, how many bytes were taken, and how many faults there were.
type Row = (
    &'static [u8],
    u64,
    u64,
    Result<(u16, bool), AskEnd>,
    usize,
    u64,
);

const ROWS: [Row; 7] = [
    (REPLY, 100, 0, Ok((200, true)), 64, 0),
    (b"HTTP/1.1 2", 100, 0, Err(AskEnd::BadReply), 64, 0),
    (b"", 100, 0, Err(AskEnd::BadReply), 64, 0),
    (b"hello", 100, 0, Err(AskEnd::BadReply), 64, 0),
    (REPLY, 100, 1, Err(AskEnd::WriteFault), 0, 1),
    (REPLY, 20, 0, Err(AskEnd::WriteFault), 20, 1),
    (REPLY, 100, 2, Err(AskEnd::ReadFault), 64, 1),
];

/// Whether the row comes out.
fn comes_out(alloc: Global, row: &Row) -> Result<bool, OutOfMemory> {
    let (left, room, failing, answer, taken, faults) = *row;
    let mut dial = dial_to(alloc, left, room, failing)?;
    let came = ask(alloc, &mut dial);
    drop(dial);
    Ok(came == (answer, Some((taken, true, faults))))
}

/// Whether all rows come out.
fn all_come_out(alloc: Global, rows: &[Row]) -> Result<bool, OutOfMemory> {
    for row in rows {
        if !comes_out(alloc, row)? {
            return Ok(false);
        }
    }
    Ok(true)
}

#[test]
fn an_ask_has_its_one_reply(rt: HostRuntime) -> Result<(), Fail> {
    assert!(rt; all_come_out(rt.alloc(), &ROWS)?);
    Ok(())
}

#[test]
fn a_dial_that_fails_asks_nothing(rt: HostRuntime) {
    let mut dial = MemDial::new(None);
    let came = ask(rt.alloc(), &mut dial);
    drop(dial);
    assert!(rt; came == (Err(AskEnd::DialFault), None));
}
