//! The printed form of a query.
#![tactic(auto)]

mod conditions;
mod escapes;
mod operands;
mod pieces;
mod printing;

pub use printing::text;
