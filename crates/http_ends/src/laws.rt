//! Laws of messages. Each function does nothing, and its contract is the law.

ghost use Rattle.http_ends.specs.Laws.{OneNext, OneReply, RepliesReadBack, RequestsReadBack};

/// At most one answer comes next in a stream of bytes, with one rest.
pub fn one_next()
    ensures { OneNext }
{}

/// A stream of bytes begins with at most one reply, with one rest.
pub fn one_reply()
    ensures { OneReply }
{}

/// Whatever follows the text of a reply, a client reads that reply and takes exactly its text.
pub fn replies_read_back()
    ensures { RepliesReadBack }
{}

/// Whatever follows the text of a request, a server reads that request and takes exactly its text.
pub fn requests_read_back()
    ensures { RequestsReadBack }
{}
