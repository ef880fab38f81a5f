//! The rows of a query over a graph, a page at a time: what is bound in a row and what paths lead to from there (`values`),
//! when a condition holds of it (`conditions`), and the walk from row to row.
#![tactic(auto)]

pub mod conditions;
mod counting;
mod gathering;
mod joining;
mod keys;
mod numbers;
mod paging;
mod projection;
pub mod values;
mod walk;

pub use crate::conditions::GraphView;
pub use counting::count;
pub use paging::{Rows, page};
