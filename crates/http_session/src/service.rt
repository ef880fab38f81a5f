ghost use Rattle.std.specs.Prelude.{IfOk, List, [], ◌++◌};
ghost use Rattle.http_ends.specs.declared.request.Request.{Request};
ghost use Rattle.http_ends.specs.declared.response.Response.{Response};
ghost use Rattle.http_session.specs.Answers.{Answers, RequestIsWithinLimits};
ghost use Rattle.http_ends.specs.Replies.{IsWritable};

use http_ends::{Request, Response};
use thiserror::Error;

/// What a request is answered with.
#[derive(Debug, Drop)]
pub struct Answer {
    pub response: Response,
    /// Whether the request left an entry.
    pub entered: bool,
}

/// No memory was found for the answer to a request.
#[derive(Clone, Copy, Debug, PartialEq, Eq, Hash, Error)]
pub enum Trouble {
    /// The request left no entry.
    #[error("out of memory before the entry")]
    NoEntry,
    /// The request left its entry, and only the response was not made.
    #[error("out of memory after the entry")]
    EntryInHand,
}

/// What answers the requests of one session.
///
/// A response is decided by the request's own bytes, or comes with one entry that the request leaves in a history.
pub trait Service {
    // An entry of the history.
    ghost Entry: { Type 0 };
    // The request's own bytes decide this response.
    ghost own: { Request → Response → Type 0 };
    // A request that leaves this entry has this response.
    ghost enters: { Request → Self.Entry → Response → Type 0 };
    // From one moment to another, these are the session's own entries in between.
    ghost goes: { Self → List Self.Entry → Self → Type 0 };
    // What it rests on whenever it is asked.
    ghost ready: { Self → Type 0 } = { λ _. Unit {0} };

    /// Answers a request that was read whole.
    ///
    /// Want of memory says whether the request left its entry.
    fn answer(&mut self, request: &Request) -> Result<Answer, Trouble>
        requires within { RequestIsWithinLimits request.now }
        requires ready { ready self.old }
        ensures ready { ready self.new }
        ensures answers { Answers own enters goes self.old self.new request.now result }
        ensures writable { IfOk result (λ answer. IsWritable answer.response) };

    // Where nothing was asked, there is no entry.
    ghost stays: { (s : Self) → goes s [] s };
    // The entries of one stretch after another are joined.
    ghost goes_on: { (s t u : Self) (es fs : List Self.Entry) → goes s es t → goes t fs u → goes s (es ++ fs) u };
}
