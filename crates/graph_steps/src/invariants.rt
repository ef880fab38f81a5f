//! Laws of the typed graph: every step leads from a well-typed state to a well-typed one, and what a step does to a twin
//! whose model is not there.

mod laws;

pub use laws::{keeps_typed, stays_frozen};
