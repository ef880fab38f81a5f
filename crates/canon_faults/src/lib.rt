//! Laws of canonical texts: read as documents, they have no fault.
#![tactic(auto)]

mod laws;
mod sets;
mod texts;

pub use laws::{break_nothing, numbers_are_normal, soundly_declared};
pub use sets::{declared_alike, judged_alike};
pub use texts::{prints_again, without_faults};
