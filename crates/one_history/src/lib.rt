//! One object, which any number of threads call, one at a time, and one history of all calls.
#![tactic(auto)]

mod calls;
mod history;
mod plays;
mod rule;
mod shared;
mod turns;
mod waiting;

pub use history::{Entry, Member, Turn, View};
pub use rule::Law;
pub use shared::{NewEnd, Pass, Shared};

#[cfg(test)]
mod tests;
