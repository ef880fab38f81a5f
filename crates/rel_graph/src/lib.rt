//! The edges of a typed graph: a list in the order of source and id, with the edges of a source, those of a target,
//! and how many of a source have a name, each found without looking at other edges.
#![tactic(auto)]

mod counts;
mod edge;
mod index;
mod listing;
mod rels;

pub use edge::{Edge, PutEnd};
pub use listing::{Into, Listing, Out};
pub use rels::Rels;
