//! What a client asks over a connection: one request, and its one reply (RFC 9112, section 9.6).
#![tactic(auto)]

mod ask;
mod ends;

pub use ask::ask_over;
pub use ends::AskEnd;
