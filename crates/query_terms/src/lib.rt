//! Queries over a graph of digital twins, as plain data, and in `tokens` the tokens that their texts are made of.
#![tactic(auto)]

mod cond;
mod copies;
mod copying;
mod operand;
mod query;
pub mod tokens;

pub use cond::{Cond, Kind, PartKind};
pub use operand::{Compare, Literal, Operand};
pub use query::{Item, Join, Projection, Query};
