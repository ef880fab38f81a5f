ghost use Rattle.std.specs.Prelude.{◌≡◌, ◌≤◌, length, map, All};
ghost use Rattle.httparse.specs.Spans.{IsHeaderWithin, header_bytes};
ghost use Rattle.http_ends.specs.reading.JudgingReplies.{reply_size, JudgesReply};

use crate::fields::{content_length, find_named};
use crate::request_head::{MOST_FIELDS, MOST_HEAD};
use crate::search::Judged;
use httparse::Status;
use httparse::spans::{EMPTY_HEADER_SPAN, HeaderSpan, ResponseSpans, Span, parse_response};

/// The most bytes of a reply's body.
const MOST_BODY: u64 = 134_217_728;

/// The status of a reply that has no body.
const NO_CONTENT: u16 = 204;

/// What a reply's head says.
#[derive(Clone, Copy, Debug)]
pub(crate) struct ReplyHead {
    pub status: u16,
    /// The value of the first field `Allow`.
    pub allow: Option<Span>,
    pub len: usize,
    /// How many bytes the body has.
    pub body: u64,
}

/// How many bytes the body has, where the head that the parser found is within the limits and says so.
fn body_size(bytes: &[u8], spans: &ResponseSpans, fields: &[HeaderSpan]) -> Option<u64>
    requires { All (IsHeaderWithin (length bytes.now)) fields.now }
    ensures { result ≡ reply_size spans.now (map (header_bytes bytes.now) fields.now) }
{
    if spans.len > MOST_HEAD {
        return None;
    }
    let said = content_length(bytes, fields)?;
    if said.unwrap_or(0) > MOST_BODY {
        return None;
    }
    if spans.code == NO_CONTENT {
        Some(0)
    } else {
        said
    }
}

/// Judges what has come of a reply.
pub(crate) fn judge_reply(bytes: &[u8]) -> Judged<ReplyHead>
    ensures { JudgesReply bytes.now result }
{
    let mut fields = [EMPTY_HEADER_SPAN; MOST_FIELDS];
    match parse_response(bytes, &mut fields) {
        Ok(Status::Complete(spans)) => {
            let fields = &fields[..spans.headers];
            match body_size(bytes, &spans, fields) {
                Some(body) => Judged::Whole(ReplyHead {
                    status: spans.code,
                    allow: find_named(bytes, fields, b"allow").first,
                    len: spans.len,
                    body,
                }),
                None => Judged::Refused,
            }
        }
        Ok(Status::Partial) => Judged::Open,
        Err(_) => Judged::Refused,
    }
}
