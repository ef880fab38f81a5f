//! A graph of so many rooms, each with a sensor, that is made by the machine's own steps, and its counts.

mod laws;
mod maker;
mod requests;

pub use laws::one_text;
pub use maker::make;
