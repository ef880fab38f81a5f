//! The twins of a graph with the sizes of their texts: a list in the order of their ids, in which a twin, the next one
//! past an id, the twins of a model, and the next model past one with the number of its twins are found without looking
//! at other twins.

mod held;
mod ids;
mod index;
mod listing;
mod twins;

pub use held::{Held, PutEnd};
pub use listing::OfModel;
pub use twins::Twins;
