ghost use Rattle.std.specs.Prelude.{◌≡◌, ℕ, ◌+◌, ◌<◌, ◌≤◌, List, [], ◌++◌, length, drop, ◌⊎◌, IfOk, IfErr, OnErr, IfSome, IsUtf8, slice_range, ◌==◌};
ghost use Rattle.std.specs.List.{before_first, after_first};
ghost use Rattle.std.specs.Io.KnownBytes.{IsAtEnd};
ghost use Rattle.dt_base.specs.Faults.{Rose};
ghost use Rattle.httparse.specs.Grammar.{RequestHead};
ghost use Rattle.httparse.specs.Spans.{IsWithin, span_bytes};
ghost use Rattle.http_ends.specs.declared.buffer.Filled.TheVariants.{More, Ended, Failed};
ghost use Rattle.http_ends.specs.declared.request.HttpEnd.TheVariants.{ReadFault};
ghost use Rattle.http_ends.specs.Heads.{BeginsWith};
ghost use Rattle.http_ends.specs.Messages.{Holds};
ghost use Rattle.http_ends.specs.Streams.{stream_of, OnStreams, ReadsNext};
ghost use Rattle.http_ends.specs.reading.Judging.{IsHeadAt, HeadEnds};
ghost use Rattle.http_ends.specs.reading.Reads.{ReadsMore, IsUnread};

use crate::buffer::Filled;
use crate::request_head::{Head, MOST_HEAD, judge_request};
use crate::search::{Judged, Search};
use crate::{Buffer, HttpEnd, Request};
use dt_base::{List, OutOfMemory, Source, Text};
use httparse::spans::Span;
use std::alloc::Global;

/// The most bytes of a request's body.
const MOST_BODY: u64 = 4_194_304;

/// Reads until a head may be judged anew, until so many bytes are there that no head within the limits is longer, or
/// until no more come.
pub(crate) fn await_head<S: Source>(
    link: &mut S,
    buffer: &mut Buffer,
    search: &mut Search,
) -> Result<Filled, OutOfMemory>
    requires { length buffer.old < 16384 }
    ensures read { ReadsMore S.left S.aside S.faults link.old link.new buffer.old buffer.new }
    ensures more { result ≡ Ok More → length buffer.old < length buffer.new }
    ensures ended { result ≡ Ok Ended → IsAtEnd (S.left link.new) }
    ensures failed { result ≡ Ok Failed → Rose (S.faults link.old) (S.faults link.new) }
{
    'awaiting: while buffer.len() < MOST_HEAD {
        match buffer.fill(link)? {
            Filled::More if search.finds_place(buffer.as_slice()) => return Ok(Filled::More),
            Filled::More => {}
            end => return Ok(end),
        }
    }
    Ok(Filled::More)
}

/// Reads until this many bytes are there, or no more come.
pub(crate) fn await_body<S: Source>(
    link: &mut S,
    buffer: &mut Buffer,
    size: usize,
) -> Result<Filled, OutOfMemory>
    ensures read { ReadsMore S.left S.aside S.faults link.old link.new buffer.old buffer.new }
    ensures more { result ≡ Ok More → size ≤ length buffer.new }
    ensures short { (result ≡ Ok Ended) ⊎ (result ≡ Ok Failed) → length buffer.new < size }
    ensures ended { result ≡ Ok Ended → IsAtEnd (S.left link.new) }
    ensures failed { result ≡ Ok Failed → Rose (S.faults link.old) (S.faults link.new) }
    ensures unread { size ≤ length buffer.old → IsUnread link.old link.new buffer.old buffer.new × (result ≡ Ok More) }
{
    'awaiting: while buffer.len() < size {
        match buffer.fill(link)? {
            Filled::More => {}
            end => return Ok(end),
        }
    }
    Ok(Filled::More)
}

/// Reads the head of the next request.
fn read_head<S: Source>(link: &mut S, buffer: &mut Buffer) -> Result<Head, HttpEnd>
    ensures read { ReadsMore S.left S.aside S.faults link.old link.new buffer.old buffer.new }
    ensures head { IfOk result (λ head. (h : RequestHead) × IsHeadAt buffer.new head h) }
    ensures why { IfErr result (HeadEnds buffer.new (S.left link.new)) }
    ensures cause { result ≡ Err ReadFault → Rose (S.faults link.old) (S.faults link.new) }
    ensures unread { (h : RequestHead) (after : List ℕ) → BeginsWith buffer.old h after → IsUnread link.old link.new buffer.old buffer.new }
{
    let mut search = Search::new();
    let mut filled = Filled::More;
    'judging: loop {
        match judge_request(buffer.as_slice()) {
            Judged::Whole(head) => return Ok(head),
            Judged::Refused => return Err(HttpEnd::BadHead),
            Judged::Open => {}
        }
        let come = buffer.len();
        match filled {
            Filled::Ended if come == 0 => return Err(HttpEnd::Closed),
            Filled::Ended => return Err(HttpEnd::BadHead),
            Filled::Failed => return Err(HttpEnd::ReadFault),
            Filled::More if come >= MOST_HEAD => return Err(HttpEnd::BadHead),
            Filled::More => {}
        }
        filled = await_head(link, buffer, &mut search)?;
    }
}

/// The text at a place of the bytes.
pub(crate) fn text_at(bytes: &[u8], span: Span) -> &str
    requires within { IsWithin (length bytes.now) span }
    requires text { IsUtf8 (span_bytes bytes.now span) }
    ensures { result.now ≡ span_bytes bytes.now span }
{
    match std::str::from_utf8(span.of(bytes)) {
        Ok(text) => text,
        Err(_) => unreachable!(),
    }
}

/// The path and the query of a target.
fn split_target(target: &str) -> (&str, &str)
    ensures path { result.0.now ≡ before_first (λ b. b == 63) target.now }
    ensures query { result.1.now ≡ after_first (λ b. b == 63) target.now }
{
    target.split_once('?').unwrap_or((target, ""))
}

/// The request whose message the bytes begin with.
fn request_of(alloc: Global, bytes: &[u8], head: &Head) -> Result<Request, OutOfMemory>
    requires method { IsWithin (length bytes.now) head.now.method × IsUtf8 (span_bytes bytes.now head.now.method) }
    requires target { IsWithin (length bytes.now) head.now.target × IsUtf8 (span_bytes bytes.now head.now.target) }
    requires size { head.now.len + head.now.body ≤ length bytes.now }
    ensures method { IfOk result (λ r. r.method ≡ span_bytes bytes.now head.now.method) }
    ensures path { IfOk result (λ r. r.path ≡ before_first (λ b. b == 63) (span_bytes bytes.now head.now.target)) }
    ensures query { IfOk result (λ r. r.query ≡ after_first (λ b. b == 63) (span_bytes bytes.now head.now.target)) }
    ensures body { IfOk result (λ r. r.body ≡ slice_range bytes.now head.now.len (head.now.len + head.now.body)) }
    ensures close { IfOk result (λ r. r.close ≡ head.now.close) }
{
    let (path, query) = split_target(text_at(bytes, head.target));
    let body = &bytes[head.len..head.len + head.body as usize];
    Ok(Request {
        method: Text::from_str(alloc, text_at(bytes, head.method))?,
        path: Text::from_str(alloc, path)?,
        query: Text::from_str(alloc, query)?,
        body: List::from_vec(Vec::from_slice(alloc, body)?),
        close: head.close,
    })
}

/// Reads the next request of a stream, which is the bytes of the buffer and then those that the link has left.
///
/// A head is one of the grammar of the crate `httparse` in its default configuration, of version 1.0 or 1.1, of at
/// most 16,384 bytes and 64 fields, with a target in UTF-8 and at most one `Content-Length` of 1 to 18 digits. A
/// message is a head and as many bytes as it says (RFC 9112, section 6), at most 4,194,304. `HttpEnd` says what comes
/// in place of a request. A request takes exactly the bytes of its message from the stream, and whatever else is
/// answered takes none: then bytes have at most moved from the link to the buffer. The link is not read where the
/// buffer alone holds a message, or a head that is refused for its transfer coding or its length.
pub fn next_request<S: Source>(
    alloc: Global,
    link: &mut S,
    buffer: &mut Buffer,
) -> Result<Request, HttpEnd>
    ensures next { OnStreams (stream_of buffer.old (S.left link.old)) (stream_of buffer.new (S.left link.new)) (ReadsNext result) }
    ensures within { IfOk result (λ r. (length r.path + length r.query ≤ 16384) × (length r.body ≤ 4194304)) }
    ensures unread { Holds buffer.old → link.new ≡ link.old }
    ensures fault { result ≡ Err ReadFault → Holds buffer.new → ⊥ }
    ensures cause { result ≡ Err ReadFault → Rose (S.faults link.old) (S.faults link.new) }
    ensures count { S.faults link.old ≤ S.faults link.new }
    ensures beside { S.aside link.new ≡ S.aside link.old }
{
    let head = read_head(link, buffer)?;
    if head.coded {
        return Err(HttpEnd::TransferCoding);
    }
    if head.body > MOST_BODY {
        return Err(HttpEnd::BodyTooLong);
    }
    let size = head.len + head.body as usize;
    match await_body(link, buffer, size)? {
        Filled::More => {}
        Filled::Ended => return Err(HttpEnd::CutOff),
        Filled::Failed => return Err(HttpEnd::ReadFault),
    }
    let request = request_of(alloc, buffer.as_slice(), &head)?;
    buffer.consume(size);
    Ok(request)
}
