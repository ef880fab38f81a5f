//! The query language: its refusals, and the query that a text is.
#![tactic(auto)]

mod aliases;
mod fault;
mod laws;
mod reading;

pub use fault::QueryFault;
pub use laws::{one_fault, one_query, query_or_fault, some_query_or_fault};
pub use reading::read;
