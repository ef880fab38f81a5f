//! When a condition of a query holds of a row, and the graph that it is asked of.

mod comparing;
mod holding;
mod kinds;
mod models;
mod parts;
mod sides;
mod twins;
mod view;

pub use holding::holds;
pub use models::{is_of_model, one_reaches};
pub use view::GraphView;
