//! HTTP/1.1 messages (RFC 9110, RFC 9112) at both ends: what a server reads and writes, and what a client writes
//! and reads, over links of which the bytes are told or not.
#![tactic(auto)]

mod buffer;
mod client_replies;
mod client_requests;
mod fields;
mod laws;
mod lines;
mod replies;
mod reply_head;
mod request;
mod request_head;
mod requests;
mod response;
mod search;

pub use buffer::Buffer;
pub use client_replies::next_response;
pub use client_requests::write_request;
pub use laws::{one_next, one_reply, replies_read_back, requests_read_back};
pub use replies::write_response;
pub use request::{HttpEnd, Request};
pub use requests::next_request;
pub use response::{ReplyEnd, Response, SendEnd};
