//! What a graph of digital twins is asked, and what it answers, as plain data.
#![tactic(auto)]

mod ask;
mod copies;
mod refusal;
mod reply;

pub use ask::Ask;
pub use refusal::{At, Refusal};
pub use reply::Reply;
