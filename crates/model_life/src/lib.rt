//! The models of a graph: interfaces that together break no rule, each with a mark, and how many bytes they take with all
//! that they inherit. In `resolution` what an interface has with all that it inherits, and in `sets` laws of sets to which
//! interfaces come and from which they go.
#![tactic(auto)]

mod adding;
mod ends;
mod laws;
mod models;
mod records;
pub mod resolution;
pub mod sets;
mod shares;
mod store;
mod sums;
mod users;

pub use ends::{AddEnd, DropEnd, MarkEnd};
pub use laws::one_sum;
pub use models::{MOST_MODEL_BYTES, MOST_MODELS, MOST_RESOLVED_BYTES, Models};
