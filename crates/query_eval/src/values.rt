//! What is bound in a row of a query, and what a path leads to from there: a value that the graph holds, or one that is made
//! for the row.

mod along;
mod binding;
mod found;
mod links;
mod paths;
mod twins;
mod whole;

pub use binding::{Binding, Element};
pub use found::Found;
pub use paths::{bound_to, value_along, value_at};
pub use whole::whole_value;
