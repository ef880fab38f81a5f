//! Laws of sessions. Each function does nothing, and its contract is the law.

ghost use Rattle.http_session.specs.Uniqueness.{OneSession};

/// What requests are answered with, from state to state.
pub trait Rules {
    ghost use Rattle.http_ends.specs.declared.request.Request.{Request};
    ghost use Rattle.http_ends.specs.declared.response.Response.{Response};

    // A state.
    ghost State: { Type 0 };
    // An entry of the history.
    ghost Entry: { Type 0 };
    // The request's own bytes decide this response.
    ghost own: { Request → Response → Type 0 };
    // A request that leaves this entry has this response.
    ghost enters: { Request → Self.Entry → Response → Type 0 };
    // The state allows this entry.
    ghost allowed: { Self.State → Self.Entry → Type 0 };
    // The state that follows a state and its entry.
    ghost follows: { Self.State → Self.Entry → Self.State };
    // Two entries count as one.
    ghost same: { Self.Entry → Self.Entry → Type 0 };
}

/// Where a state and a request have one response, there is one session of a stream that its bytes end.
pub fn one_session<R: Rules>()
    ensures { OneSession R.own R.enters R.allowed R.follows R.same }
{}
