//! That the step of the typed graph decides every answer: each ask has one in a state, asks that say the same have the same one, and
//! one state follows; and what the rows of a query are, in which order they stand, and how its pages follow one another.
#![tactic(auto)]

mod existence;
mod laws;
mod rows;

pub use existence::some_answer;
pub use laws::one_step;
pub use rows::{pages_are_whole, pages_follow, rows_are_tuples, rows_in_order};
