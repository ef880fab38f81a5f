ghost use Rattle.std.specs.Prelude.{◌≡◌, ◌≤◌, length, map, All};
ghost use Rattle.httparse.specs.Spans.{IsHeaderWithin, header_bytes};
ghost use Rattle.http_ends.specs.reading.Judging.{head_from, Judges};

use crate::fields::{content_length, find_named, says_close};
use crate::search::Judged;
use httparse::Status;
use httparse::spans::{EMPTY_HEADER_SPAN, HeaderSpan, RequestSpans, Span, parse_request};

/// The most bytes of a head, empty lines before it included.
pub(crate) const MOST_HEAD: usize = 16_384;

/// The most fields of a head.
pub(crate) const MOST_FIELDS: usize = 64;

/// Where the parts of a request's head are, and what it says of what follows.
#[derive(Clone, Copy, Debug)]
pub(crate) struct Head {
    pub method: Span,
    pub target: Span,
    pub len: usize,
    /// How many bytes the body has.
    pub body: u64,
    /// Whether there is a field `Transfer-Encoding`.
    pub coded: bool,
    /// Whether the connection is to be closed after the reply.
    pub close: bool,
}

/// What is kept of a head that the parser found, where it is within the limits.
fn head_of(bytes: &[u8], spans: &RequestSpans, fields: &[HeaderSpan]) -> Option<Head>
    requires { All (IsHeaderWithin (length bytes.now)) fields.now }
    ensures { result ≡ head_from spans.now (map (header_bytes bytes.now) fields.now) }
{
    if spans.len > MOST_HEAD {
        return None;
    }
    let length = content_length(bytes, fields)?;
    Some(Head {
        method: spans.method,
        target: spans.path,
        len: spans.len,
        body: length.unwrap_or(0),
        coded: find_named(bytes, fields, b"transfer-encoding")
            .first
            .is_some(),
        close: spans.version == 0 || says_close(bytes, fields),
    })
}

/// Judges what has come of a request.
pub(crate) fn judge_request(bytes: &[u8]) -> Judged<Head>
    ensures { Judges bytes.now result }
{
    if bytes.is_empty() {
        return Judged::Open;
    }
    let mut fields = [EMPTY_HEADER_SPAN; MOST_FIELDS];
    match parse_request(bytes, &mut fields) {
        Ok(Status::Complete(spans)) => match head_of(bytes, &spans, &fields[..spans.headers]) {
            Some(head) => Judged::Whole(head),
            None => Judged::Refused,
        },
        Ok(Status::Partial) => Judged::Open,
        Err(_) => Judged::Refused,
    }
}
