//! The first breach of the local rules in a document: a walk over its places, and the schemas that each interface
//! names, with their levels and what they reach.
#![tactic(auto)]

mod document;
mod ids;
mod index;
mod laws;
mod look;
mod measures;
mod rounds;
mod schemas;
mod walk;

pub use document::{Breach, first_breach};
pub use laws::{breach_or_none, one_first_breach};
