//! Which ask of the graph an HTTP request makes, or which refusal its own bytes decide, and the responses of replies.
#![tactic(auto)]

mod asks;
mod bodies;
mod differences;
mod errors;
mod laws;
mod links;
mod method;
mod outer;
mod parameters;
mod parts;
mod patches;
mod prepared;
mod queries;
mod responses;
mod route;
mod router;
mod twins;

pub use laws::{documents_are_sound, one_prepared, prepared_is_right, some_prepared};
pub use method::Method;
pub use prepared::Prepared;
pub use responses::{response_of, response_of_refusal};
pub use route::Route;
pub use router::Routes;
