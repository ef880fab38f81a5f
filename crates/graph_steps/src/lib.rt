//! The typed graph of digital twins as definitions: its states, when a state is well typed, which asks may be made, and
//! the step from one state to the next, with its laws (`invariants`). And what those who judge and answer asks share: the
//! table of twins (`twins`), bodies (`bodies`), pages (`paging`), and what a graph holds, lent to them (`held`).
#![tactic(auto)]

pub mod bodies;
pub mod held;
pub mod invariants;
mod laws;
pub mod paging;
pub mod twins;

pub use laws::empty_is_typed;
