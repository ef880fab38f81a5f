//! How many bytes the texts of JSON trees have, counted without memory.
#![tactic(auto)]

mod laws;
mod numbers;
mod spending;
mod texts;
mod values;

pub use laws::{one_length_sorted, one_object_length};
pub use texts::left_after_text;
pub use values::{left_after, left_after_members};
