//! A reader of queries that takes one token at a time: the state behind a token, and the query behind the last.
//!
//! A proof pays for each part of each value that is let go at a way out. So where much is held, one `drop` or a function of
//! `leaving` lets all of it go, and `let .. else` stands in the place of `?`.
#![tactic(auto)]

mod building;
mod conditions;
mod ending;
mod leaving;
mod noting;
mod selecting;
mod sourcing;
mod stage;
mod stepping;
mod testing;
mod tests_of_tokens;

pub use ending::end;
pub use stepping::step;
