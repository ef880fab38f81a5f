//! Laws of canonical texts: what they spell, and what they declare, read as documents.
#![tactic(auto)]

mod laws;
mod texts;

pub use laws::{declares_the_same, have_types, prints_itself};
pub use texts::{nest, one_set_text, one_text, reads_back, same_bytes};
