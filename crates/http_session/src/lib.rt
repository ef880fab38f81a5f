//! Sessions of HTTP/1.1 (RFC 9112, section 9.3): the requests of a stream are answered one after the other, by whatever
//! service there is, until the stream or the session ends.
#![tactic(auto)]

mod ends;
mod laws;
mod links;
mod refusals;
mod service;
mod session;

pub use ends::SessionEnd;
pub use laws::{Rules, one_session};
pub use links::serve_link;
pub use refusals::give_up;
pub use service::{Answer, Service, Trouble};
pub use session::serve;
