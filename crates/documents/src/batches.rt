//! Texts of JSON arrays, cut between elements into batches, so that a long one can be read without a value of the whole.

mod ends;
mod laws;
mod likely;
mod texts;

pub use ends::{array_start, batch_end};
pub use laws::joined;
pub use likely::likely_end;
pub use texts::put_batch;
