//! What each interface of a set has with all that it inherits, kept as interfaces come and go.
#![tactic(auto)]

mod laws;
mod table;

pub use laws::{others_stay_resolved, rest_stays_resolved};
pub use table::Table;
