//! Which ask the value of a query's body makes, or which refusal it decides.
#![tactic(auto)]

mod asks;
mod breaches;
mod faults;
mod laws;

pub use asks::ask_of_body;
pub use laws::{one_outcome, some_outcome, sound_ask, token_as_ids};
