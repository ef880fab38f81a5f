//! The tokens of a query's text.
#![tactic(auto)]

mod bytes;
mod laws;
mod marks;
mod numbers;
mod texts;
mod tokenizing;

pub use laws::{one_longest, one_token};
pub use tokenizing::{behind_spaces, token_of};
