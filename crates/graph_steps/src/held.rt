//! What a graph keeps, lent to whoever judges what is asked of it: twins and relationships with the sizes of their texts, and
//! bodies judged by what a model of it has, and what it declares of a relationship.

mod bodies;
mod declared;
mod lent;
mod stored;

pub use bodies::{judged_link, judged_part, judged_twin};
pub use declared::{link_called, most_of, target_of};
pub use lent::Lent;
pub use stored::{Stored, stored_tree};
