//! Bodies of twins, relationships and components, judged and read by what a model of the graph has, and what is printed of
//! them.

mod bodies;
mod failure;
mod laws;
mod links;
mod models;
mod outer;
mod parts;
mod patches;
mod printing;

pub use bodies::twin_from_body;
pub use failure::BodyFailure;
pub use laws::{found_ancestors, judged_alike, kept_for, kept_part};
pub use links::link_from_body;
pub use models::is_model_a;
pub use outer::{outer_link_fault, outer_twin_fault};
pub use parts::part_from_body;
pub use patches::patched;
pub use printing::{link_bytes, link_tree, part_tree, twin_bytes, twin_tree};
