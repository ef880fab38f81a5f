//! The tokens of the query language.

mod names;
mod token;

pub use names::{same_letters, word_of};
pub use token::{Mark, Token, Word};
