ghost use Rattle.std.specs.Prelude.{◌≡◌, ℕ, ◌+◌, ◌≤◌, List, length, drop, IfOk, IfErr, IfSome, OnOk, slice_range};
ghost use Rattle.dt_base.specs.Faults.{Rose};
ghost use Rattle.httparse.specs.Grammar.{ResponseHead};
ghost use Rattle.httparse.specs.Spans.{IsWithin, span_bytes};
ghost use Rattle.http_ends.specs.ReplyReading.{AnswersReply, IsAllow};
ghost use Rattle.http_ends.specs.Streams.{stream_of, OnStreams};
ghost use Rattle.http_ends.specs.reading.JudgingReplies.{IsReplyHeadAt, ReplyEnds, AllowIs};
ghost use Rattle.http_ends.specs.reading.Reads.{ReadsMore};

use crate::buffer::Filled;
use crate::reply_head::{ReplyHead, judge_reply};
use crate::request_head::MOST_HEAD;
use crate::requests::{await_body, await_head};
use crate::search::{Judged, Search};
use crate::{Buffer, ReplyEnd, Response};
use dt_base::{List, OutOfMemory, Source, Text};
use httparse::spans::Span;
use std::alloc::Global;

/// Reads the head of a reply.
fn read_reply_head<S: Source>(link: &mut S, buffer: &mut Buffer) -> Result<ReplyHead, ReplyEnd>
    ensures read { ReadsMore S.left S.aside S.faults link.old link.new buffer.old buffer.new }
    ensures head { IfOk result (λ head. (h : ResponseHead) × IsReplyHeadAt buffer.new head h) }
    ensures why { IfErr result (ReplyEnds buffer.new (S.left link.new)) }
    ensures cause { result ≡ Err ReplyEnd.ReadFault → Rose (S.faults link.old) (S.faults link.new) }
{
    let mut search = Search::new();
    let mut filled = Filled::More;
    'judging: loop {
        match judge_reply(buffer.as_slice()) {
            Judged::Whole(head) => return Ok(head),
            Judged::Refused => return Err(ReplyEnd::BadReply),
            Judged::Open => {}
        }
        let come = buffer.len();
        match filled {
            Filled::Ended => return Err(ReplyEnd::BadReply),
            Filled::Failed => return Err(ReplyEnd::ReadFault),
            Filled::More if come >= MOST_HEAD => return Err(ReplyEnd::BadReply),
            Filled::More => {}
        }
        filled = await_head(link, buffer, &mut search)?;
    }
}

/// The text at a place, where it is text in UTF-8.
fn allow_at(alloc: Global, bytes: &[u8], span: Option<Span>) -> Result<Option<Text>, OutOfMemory>
    requires { IfSome span (IsWithin (length bytes.now)) }
    ensures { IfOk result (AllowIs bytes.now span) }
{
    let Some(span) = span else {
        return Ok(None);
    };
    match std::str::from_utf8(span.of(bytes)) {
        Ok(text) => Ok(Some(Text::from_str(alloc, text)?)),
        Err(_) => Ok(None),
    }
}

/// The reply that the bytes begin with.
fn reply_of(alloc: Global, bytes: &[u8], head: &ReplyHead) -> Result<Response, OutOfMemory>
    requires allow { IfSome head.now.allow (IsWithin (length bytes.now)) }
    requires size { head.now.len + head.now.body ≤ length bytes.now }
    ensures status { IfOk result (λ r. r.status ≡ head.now.status) }
    ensures allow { IfOk result (λ r. AllowIs bytes.now head.now.allow r.allow) }
    ensures body { IfOk result (λ r. r.body ≡ slice_range bytes.now head.now.len (head.now.len + head.now.body)) }
{
    let body = &bytes[head.len..head.len + head.body as usize];
    Ok(Response {
        status: head.status,
        allow: allow_at(alloc, bytes, head.allow)?,
        body: List::from_vec(Vec::from_slice(alloc, body)?),
    })
}

/// Reads a reply at the front of a stream, which is the bytes of the buffer and then those that the link has left.
///
/// Its head is one of the response grammar of the crate `httparse` in its default configuration, of at most 16,384
/// bytes and 64 fields, with at most one `Content-Length` of 1 to 18 digits. Its body has as many bytes as that says,
/// at most 134,217,728, and none for the status 204; `BadReply` comes exactly where the stream does not begin so. `allow`
/// is the value of the first field `Allow`, without the spaces and tabs around it, where that is UTF-8.
pub fn next_response<S: Source>(
    alloc: Global,
    link: &mut S,
    buffer: &mut Buffer,
) -> Result<Response, ReplyEnd>
    ensures next { OnStreams (stream_of buffer.old (S.left link.old)) (stream_of buffer.new (S.left link.new)) (AnswersReply result) }
    ensures within { IfOk result (λ r. length r.body ≤ 134217728) }
    ensures cause { result ≡ Err ReplyEnd.ReadFault → Rose (S.faults link.old) (S.faults link.new) }
    ensures count { S.faults link.old ≤ S.faults link.new }
    ensures beside { S.aside link.new ≡ S.aside link.old }
{
    let head = read_reply_head(link, buffer)?;
    let size = head.len + head.body as usize;
    match await_body(link, buffer, size)? {
        Filled::More => {}
        Filled::Ended => return Err(ReplyEnd::BadReply),
        Filled::Failed => return Err(ReplyEnd::ReadFault),
    }
    let response = reply_of(alloc, buffer.as_slice(), &head)?;
    buffer.consume(size);
    Ok(response)
}
