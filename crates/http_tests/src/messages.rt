//! Worked rows of messages, over links in memory.

ghost use Rattle.std.specs.Prelude.{◌≡◌, [], None, IfOk, IsSome};
ghost use Rattle.http_ends.specs.Replies.{phrase_of, IsAllowed};

use crate::sources::{both, list_of, source_of};
use dt_base::{MemSink, MemSource, OutOfMemory};
use http_ends::{
    Buffer, HttpEnd, ReplyEnd, Request, Response, next_request, next_response, write_request,
    write_response,
};
use std::alloc::{AllocError, Global};
use std::test::Fail;

/// What a request says: its method, path and query, whether it asks to close, and its body.
type Said = (
    &'static str,
    &'static str,
    &'static str,
    bool,
    &'static [u8],
);

const TWO: &[u8] =
    b"POST /qu\xc3\xa9ry?a=b?c HTTP/1.1\r\nHost: x\r\nContent-Length: 5\r\n\r\n12345GET /c HTTP/1.1\r\nConnection: close\r\n\r\n";

/// What the requests of `TWO` say, and that there are no more.
const TWO_SAID: [Option<Said>; 3] = [
    Some(("POST", "/qu\u{e9}ry", "a=b?c", false, b"12345")),
    Some(("GET", "/c", "", true, b"")),
    None,
];

fn says(request: &Request, said: Said) -> bool {
    let (method, path, query, close, body) = said;
    request.method.as_str() == method
        && request.path.as_str() == path
        && request.query.as_str() == query
        && request.close == close
        && request.body.as_slice() == body
}

/// The next request of a source, of which a read that failed is tried again.
fn next(alloc: Global, source: &mut MemSource, buffer: &mut Buffer) -> Result<Request, HttpEnd> {
    match next_request(alloc, source, buffer) {
        Err(HttpEnd::ReadFault) => next_request(alloc, source, buffer),
        read => read,
    }
}

/// Whether the next request says this, or there is none.
fn gives(alloc: Global, source: &mut MemSource, buffer: &mut Buffer, said: Option<Said>) -> bool {
    let read = next(alloc, source, buffer);
    let is_so = match (&read, said) {
        (Ok(request), Some(said)) => says(request, said),
        (Err(HttpEnd::Closed), None) => true,
        _ => false,
    };
    drop(read);
    is_so
}

fn gives_two(alloc: Global, source: &mut MemSource, buffer: &mut Buffer) -> bool {
    for said in TWO_SAID {
        if !gives(alloc, source, buffer, said) {
            return false;
        }
    }
    true
}

/// A source as `source_of` makes it, and a buffer.
fn begun(
    alloc: Global,
    bytes: &[u8],
    failing: u64,
    first: u64,
    further: u64,
) -> Result<(MemSource, Buffer), OutOfMemory> {
    both(
        source_of(alloc, bytes, failing, first, further),
        Buffer::new(alloc),
    )
}

/// Whether the requests of `TWO` are read, of which one read fails and the first gives at most so many bytes.
fn are_read(alloc: Global, failing: u64, first: u64, further: u64) -> Result<bool, OutOfMemory> {
    let (mut source, mut buffer) = begun(alloc, TWO, failing, first, further)?;
    let are_read = gives_two(alloc, &mut source, &mut buffer);
    drop((source, buffer));
    Ok(are_read)
}

#[test]
fn reads_two_requests_across_each_split_and_fault(rt: HostRuntime) -> Result<(), Fail> {
    let alloc = rt.alloc();
    for at in 1..TWO.len() as u64 {
        assert!(rt;
            are_read(alloc, 0, at, 1000)? && are_read(alloc, at, 1, 1)?,
            "split or fault at {at}"
        );
    }
    Ok(())
}

/// A request with so many fields, and with so many bytes in its head where these are more.
fn long_head(alloc: Global, fields: usize, size: usize) -> Result<Vec<u8>, AllocError> {
    let mut text = Vec::from_slice(alloc, b"GET /a HTTP/1.1\r\n")?;
    for _ in 1..fields {
        text.extend_from_slice(b"a:b\r\n")?;
    }
    text.extend_from_slice(b"a:")?;
    let filled = size.saturating_sub(4).max(text.len());
    text.resize(filled, b'b')?;
    text.extend_from_slice(b"\r\n\r\n")?;
    Ok(text)
}

/// Whether the request with this head is read, or refused for it. A read behind the head would fail.
fn is_read(alloc: Global, head: &[u8], reads: bool) -> Result<bool, OutOfMemory> {
    let behind = (head.len() as u64).saturating_add(1);
    let (mut source, mut buffer) = begun(alloc, head, behind, 1, 1)?;
    let read = next_request(alloc, &mut source, &mut buffer);
    let is_so = match &read {
        Ok(request) => reads && !request.close,
        Err(end) => !reads && *end == HttpEnd::BadHead,
    };
    drop((source, buffer));
    drop(read);
    Ok(is_so)
}

/// Whether a request with so many fields and bytes is read, or refused for its head.
fn is_read_of(alloc: Global, fields: usize, size: usize, reads: bool) -> Result<bool, OutOfMemory> {
    let head = long_head(alloc, fields, size)?;
    is_read(alloc, head.as_slice(), reads)
}

#[test]
fn reads_no_byte_too_many(rt: HostRuntime) -> Result<(), Fail> {
    for (fields, size, reads) in [
        (1, 0, true),
        (64, 0, true),
        (65, 0, false),
        (3, 16_384, true),
        (3, 16_385, false),
    ] {
        assert!(rt;
            is_read_of(rt.alloc(), fields, size, reads)?,
            "{fields} fields, {size} bytes"
        );
    }
    Ok(())
}

/// A reply without the field `Allow`.
fn reply(alloc: Global, status: u16, body: &[u8]) -> Result<Response, OutOfMemory>
    ensures status { IfOk result (λ r. r.status ≡ status) }
    ensures allow { IfOk result (λ r. r.allow ≡ None) }
{
    Ok(Response {
        status,
        allow: None,
        body: list_of(alloc, body)?,
    })
}

/// Whether a sink of this room takes this of a reply, in which a second write fails.
fn takes(
    alloc: Global,
    response: &Response,
    head_only: bool,
    room: u64,
    text: &[u8],
) -> Result<bool, OutOfMemory>
    requires status { IsSome (phrase_of response.now.status) }
    requires allow { IsAllowed response.now.status response.now.allow }
    requires empty { response.now.status ≡ 204 → response.now.body ≡ [] }
{
    let mut sink = MemSink::new(alloc, room, list_of(alloc, &[2])?);
    let end = write_response(alloc, &mut sink, response, false, head_only);
    let is_so = end.is_ok() == (room == 1000) && sink.taken() == text;
    drop(sink);
    Ok(is_so)
}

/// Whether a sink of this room takes this of a reply 200.
fn takes_reply(
    alloc: Global,
    head_only: bool,
    room: u64,
    text: &[u8],
) -> Result<bool, OutOfMemory> {
    let response = reply(alloc, 200, b"[]\n")?;
    let takes = takes(alloc, &response, head_only, room, text);
    drop(response);
    takes
}

const HEAD_ALONE: &[u8] =
    b"HTTP/1.1 200 OK\r\nContent-Length: 3\r\nContent-Type: application/json\r\n\r\n";

#[test]
fn writes_replies(rt: HostRuntime) -> Result<(), Fail> {
    for (head_only, room, text) in [
        (true, 1000, HEAD_ALONE),
        (false, 10, b"HTTP/1.1 2".as_slice()),
    ] {
        assert!(rt; takes_reply(rt.alloc(), head_only, room, text)?);
    }
    Ok(())
}

/// Whether this is written of a request.
fn takes_request(
    alloc: Global,
    method: &str,
    target: &str,
    body: Option<&[u8]>,
    text: &str,
) -> Result<bool, OutOfMemory> {
    let mut sink = MemSink::new(alloc, 1000, list_of(alloc, &[2])?);
    let end = write_request(alloc, &mut sink, "localhost", 8080, method, target, body);
    let is_so = end.is_ok() && sink.taken() == text.as_bytes();
    drop(sink);
    Ok(is_so)
}

#[test]
fn writes_requests(rt: HostRuntime) -> Result<(), Fail> {
    for (method, target, body, text) in [
        (
            "GET",
            "/canon",
            None,
            "GET /canon HTTP/1.1\r\nHost: localhost:8080\r\nConnection: close\r\n\r\n",
        ),
        (
            "POST",
            "/query",
            Some(b"{}".as_slice()),
            "POST /query HTTP/1.1\r\nHost: localhost:8080\r\nConnection: close\r\nContent-Length: 2\r\nContent-Type: application/json\r\n\r\n{}",
        ),
    ] {
        assert!(rt; takes_request(rt.alloc(), method, target, body, text)?);
    }
    Ok(())
}

/// What a reply says: its status, its field `Allow` and its body.
type Reply = (u16, Option<&'static str>, &'static [u8]);

/// What is read, and what the reply is, or that it is none.
const REPLIES: [(&[u8], Option<Reply>); 16] = [
    (
        b"HTTP/1.1 200 OK\r\nContent-Length: 3\r\nContent-Type: application/json\r\n\r\n[]\nHTTP",
        Some((200, None, b"[]\n")),
    ),
    (
        b"HTTP/1.0 404\ncontent-length:0\n\n",
        Some((404, None, b"")),
    ),
    (
        b"HTTP/1.1 405 No\r\nAllow: \tGET, POST \r\nAllow: PUT\r\nContent-Length: 2\r\n\r\n{}",
        Some((405, Some("GET, POST"), b"{}")),
    ),
    (
        b"HTTP/1.1 405 No\r\nAllow: \xff\r\nContent-Length: 2\r\n\r\n{}",
        Some((405, None, b"{}")),
    ),
    (
        b"HTTP/1.1 204 No Content\r\n\r\nrest",
        Some((204, None, b"")),
    ),
    (
        b"HTTP/1.1 204 No Content\r\nContent-Length: 4\r\n\r\nrest",
        Some((204, None, b"")),
    ),
    (b"", None),
    (b"HTTP/1.1 2", None),
    (b"HTTP/1.1 200 OK\r\n\r\n", None),
    (b"HTTP/1.1 200 OK\r\nContent-Length: 3\r\n\r\n[]", None),
    (
        b"HTTP/1.1 200 OK\r\nContent-Length: 2\r\nContent-Length: 2\r\n\r\n[]",
        None,
    ),
    (
        b"HTTP/1.1 200 OK\r\nContent-Length: 134217729\r\n\r\n[]",
        None,
    ),
    (
        b"HTTP/1.1 204 No Content\r\nContent-Length: 134217729\r\n\r\n",
        None,
    ),
    (
        b"HTTP/1.1 204 No Content\r\nContent-Length: x\r\n\r\n",
        None,
    ),
    (b"HTTP/2.0 200 OK\r\nContent-Length: 2\r\n\r\n[]", None),
    (b"GET / HTTP/1.1\r\nContent-Length: 2\r\n\r\n[]", None),
];

fn is_reply(response: &Response, reply: Reply) -> bool {
    let (status, allow, body) = reply;
    let is_allowed = match (&response.allow, allow) {
        (Some(methods), Some(allow)) => methods.as_str() == allow,
        (None, None) => true,
        _ => false,
    };
    is_allowed && response.status == status && response.body.as_slice() == body
}

/// Whether a read gave this reply, or said that it is none.
fn gave(read: Result<Response, ReplyEnd>, reply: Option<Reply>) -> bool {
    let is_so = match (&read, reply) {
        (Ok(response), Some(reply)) => is_reply(response, reply),
        (Err(ReplyEnd::BadReply), None) => true,
        _ => false,
    };
    drop(read);
    is_so
}

/// Whether this reply is read in pieces of so many bytes, or it is none.
fn is_read_as(
    alloc: Global,
    bytes: &[u8],
    piece: u64,
    reply: Option<Reply>,
) -> Result<bool, OutOfMemory> {
    let (mut source, mut buffer) = begun(alloc, bytes, 0, piece, piece)?;
    let is_so = gave(next_response(alloc, &mut source, &mut buffer), reply);
    drop((source, buffer));
    Ok(is_so)
}

/// The position of the first reply that is not read in pieces of so many bytes as it should be, or none.
fn first_misread(
    alloc: Global,
    rows: &[(&[u8], Option<Reply>)],
    piece: u64,
) -> Result<Option<usize>, OutOfMemory> {
    for (at, (bytes, reply)) in rows.iter().enumerate() {
        if !is_read_as(alloc, bytes, piece, *reply)? {
            return Ok(Some(at));
        }
    }
    Ok(None)
}

#[test]
fn reads_replies_in_any_pieces(rt: HostRuntime) -> Result<(), Fail> {
    for piece in [1, 3, 1000] {
        assert_eq!(rt;
            first_misread(rt.alloc(), &REPLIES, piece)?,
            None,
            "{piece}"
        );
    }
    Ok(())
}

/// Whether a reply is read behind a read that failed.
fn is_read_after_fault(alloc: Global) -> Result<bool, OutOfMemory> {
    let bytes = b"HTTP/1.1 200 OK\r\nContent-Length: 2\r\n\r\n[]";
    let (mut source, mut buffer) = begun(alloc, bytes, 2, 9, 1)?;
    let first = next_response(alloc, &mut source, &mut buffer);
    let has_failed = matches!(&first, Err(ReplyEnd::ReadFault));
    drop(first);
    let second = next_response(alloc, &mut source, &mut buffer);
    drop((source, buffer));
    Ok(gave(second, Some((200, None, b"[]"))) && has_failed)
}

#[test]
fn reads_a_reply_after_a_fault(rt: HostRuntime) -> Result<(), Fail> {
    assert!(rt; is_read_after_fault(rt.alloc())?);
    Ok(())
}
